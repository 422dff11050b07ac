// What lines tell, whatever the ledger is.
ghost use Rattle.sp_flowline.specs.Distinct.{LinesTellAnswers};
ghost use Rattle.sp_flowline.specs.Written.{NoneIsARestart, RequestsReadBack};

/// Each request that can be written as a line is read back as itself.
#[tactic(auto, using(crate::proofs::ReadBack::read_back))]
pub fn each_request_is_read_back()
    ensures { RequestsReadBack }
{}

/// No request is read as a restart.
#[tactic(auto, using(crate::proofs::NoRestart::none_is_a_restart))]
pub fn no_request_is_a_restart()
    ensures { NoneIsARestart }
{}

/// Different answers have different lines; only the place of a refused event isn't shown.
#[tactic(auto, using(crate::proofs::AnswersBack::lines_tell))]
pub fn lines_tell_answers()
    ensures { LinesTellAnswers }
{}
