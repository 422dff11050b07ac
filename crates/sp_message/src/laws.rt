// What holds of texts, whatever is read.
ghost use Rattle.std.specs.Prelude.{◌≡◌, ◌≤◌, ◌++◌, ℕ, ℤ, List, [], unsigned_abs, Some};
ghost use Rattle.sp_message.specs.MessageBytes.{IsMessage};
ghost use Rattle.sp_message.specs.Decimal.{fixed_of, fixed_text};

use crate::message::Message;
use crate::value::GREATEST_FIXED;

/// Each fixed number is read from its own text.
#[tactic(auto, using(crate::proofs::FixedTexts::fixed_back))]
pub fn each_fixed_number_is_read_from_its_text()
    ensures { (z : ℤ) → unsigned_abs z ≤ GREATEST_FIXED → fixed_of (fixed_text z) ≡ Some z }
{}

/// A message has one spelling and a spelling one message, and none is the beginning of another.
#[tactic(auto, using(crate::proofs::OneSpelling::one_spelling, crate::proofs::OneSpelling::one_message, crate::proofs::OneSpelling::no_beginning))]
pub fn each_message_has_one_spelling()
    ensures spelling { (a b : List ℕ) (m : Message) → IsMessage a m → IsMessage b m → a ≡ b }
    ensures message { (bytes : List ℕ) (m n : Message) → IsMessage bytes m → IsMessage bytes n → m ≡ n }
    ensures beginning { (a b more : List ℕ) (m n : Message) → IsMessage a m → IsMessage b n → b ≡ a ++ more → more ≡ [] }
{}
