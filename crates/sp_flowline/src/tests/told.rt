// Tables of lines, each with what reading it comes to, and lines of answers.
use crate::line::line;
use crate::read::read;
use sp_base::choice::Choice;
use sp_base::declined::Declined;
use sp_base::refusal::Refusal;
use sp_config::setting::Setting;
use sp_config::value::AttrValue;
use sp_event::answer::Answered;
use sp_event::request::{Ask, Event, Outcome, Query};
use sp_message::message::{Dest, Message};
use std::alloc::{AllocError, Global};

// What a request asks for: of an endpoint its values, of a flow the number that stands last, with
// the outcome of a settle.
fn asked(alloc: Global, ask: &Ask) -> Result<String, AllocError> {
    match ask {
        Ask::Do(
            Event::Provision {
                kind,
                attributes,
                ..
            },
        ) => settings(alloc, kind.word(), attributes.as_slice()),
        Ask::Do(Event::Change { attributes, .. }) => {
            settings(alloc, "change", attributes.as_slice())
        }
        Ask::Do(Event::Deprovision { endpoint }) => String::from_str(alloc, endpoint.as_str()),
        Ask::Do(Event::Subscribe { subscription, .. }) => format!(in alloc;
            "+{}",
            subscription.as_str()
        ),
        Ask::Do(Event::Unsubscribe { subscription, .. }) => format!(in alloc;
            "-{}",
            subscription.as_str()
        ),
        Ask::Do(Event::Publish { message }) => published(alloc, message),
        Ask::Do(
            Event::Bind {
                topic: Some(topic),
                ..
            },
        ) => format!(in alloc; "bind {}", topic.as_str()),
        Ask::Do(
            Event::Bind {
                topic: None,
                selector: Some(selector),
                ..
            },
        ) => format!(in alloc;
            "bind where {}",
            str::from_utf8(selector.as_bytes()).unwrap_or("?")
        ),
        Ask::Do(Event::Bind { topic: None, .. }) => String::from_str(alloc, "bind"),
        Ask::Do(Event::Unbind { flow }) => format!(in alloc; "{}", flow.value()),
        Ask::Do(Event::Pull { count, .. }) => format!(in alloc; "{}", count.value()),
        Ask::Do(Event::Settle { copy, outcome, .. }) => format!(in alloc;
            "{} {}",
            word(*outcome),
            copy.value()
        ),
        Ask::Do(Event::Tick) => String::from_str(alloc, "tick"),
        Ask::Do(
            Event::DeleteCopies {
                endpoint,
                copy: None,
            },
        ) => format!(in alloc; "delete {}", endpoint.as_str()),
        Ask::Do(
            Event::DeleteCopies {
                endpoint,
                copy: Some(copy),
            },
        ) => format!(in alloc; "delete {} {}", endpoint.as_str(), copy.value()),
        Ask::Do(Event::Restart) => String::from_str(alloc, "restart"),
        Ask::Look(Query::Copy { copy }) => format!(in alloc; "{}", copy.value()),
        Ask::Look(Query::Flows { endpoint }) => format!(in alloc; "flows {}", endpoint.as_str()),
        Ask::Look(Query::Tally { endpoint: None }) => String::from_str(alloc, "all"),
        Ask::Look(
            Query::Tally {
                endpoint: Some(name),
            },
        ) => String::from_str(alloc, name.as_str()),
    }
}

fn word(outcome: Outcome) -> &'static str {
    match outcome {
        Outcome::Accepted => "accepted",
        Outcome::Failed => "failed",
        Outcome::Rejected => "rejected",
    }
}

// Where a message goes, how long it lives if that has a bound, and whether it may go to a
// dead-message queue.
fn published(alloc: Global, message: &Message) -> Result<String, AllocError> {
    let mut text = sent(alloc, &message.dest)?;
    if message.ttl.value() > 0 {
        text.push_str(format!(in alloc; " ttl {}", message.ttl.value())?.as_str())?;
    }
    if message.eligible {
        text.push_str(" dmq")?;
    }
    Ok(text)
}

fn sent(alloc: Global, dest: &Dest) -> Result<String, AllocError> {
    match dest {
        Dest::Topic(topic) => format!(in alloc; "topic {}", topic.as_str()),
        Dest::Queue(name) => format!(in alloc; "queue {}", name.as_str()),
    }
}

// A word and the values after it.
fn settings(alloc: Global, word: &str, settings: &[Setting]) -> Result<String, AllocError> {
    let mut text = String::from_str(alloc, word)?;
    for setting in settings {
        text.push_str(" ")?;
        text.push_str(setting.attr.name())?;
        text.push_str(shown(alloc, &setting.value)?.as_str())?;
    }
    Ok(text)
}

fn shown(alloc: Global, value: &AttrValue) -> Result<String, AllocError> {
    match value {
        AttrValue::Whole(n) => format!(in alloc; "={n}"),
        AttrValue::Flag(b) => format!(in alloc; "={b}"),
        AttrValue::Word(place) => format!(in alloc; "=word {place}"),
        AttrValue::Text(Some(name)) => format!(in alloc; "=name {}", name.as_str()),
        AttrValue::Text(None) => String::from_str(alloc, "=no name"),
    }
}

// What reading a line comes to.
pub fn told(alloc: Global, line: &[u8]) -> Result<String, AllocError> {
    match read(alloc, line) {
        Ok(ask) => asked(alloc, &ask),
        Err(Declined::Refused(refusal)) => refused(alloc, &refusal),
        Err(Declined::Memory) => Err(AllocError),
    }
}

fn refused(alloc: Global, refusal: &Refusal) -> Result<String, AllocError> {
    match refusal {
        Refusal::BadRequest { at } => format!(in alloc; "request {at}"),
        Refusal::DirectMode => String::from_str(alloc, "direct"),
        Refusal::BadTopic { at } => format!(in alloc; "bad topic {at}"),
        Refusal::BadSubscription { at } => format!(in alloc; "subscription {at}"),
        Refusal::BadSelector { at } => format!(in alloc; "selector {at}"),
        Refusal::BadAttribute { name } => format!(in alloc; "attribute {}", name.as_str()),
        _ => String::from_str(alloc, "another"),
    }
}

// The first row that isn't so. A row is what reading a line comes to, and after a bar the line.
pub fn first_wrong(alloc: Global, rows: &'static str) -> Result<Option<&'static str>, AllocError> {
    for row in rows.lines() {
        let Some((want, line)) = row.split_once('|') else {
            return Ok(Some(row));
        };
        if told(alloc, line.as_bytes())?.as_str() != want {
            return Ok(Some(row));
        }
    }
    Ok(None)
}

/// Whether the line of an answer is this text and a line feed.
pub fn shows(alloc: Global, answer: Answered, unit: u64, text: &str) -> Result<bool, AllocError> {
    let mut bytes = Vec::new(alloc);
    match line(alloc, &answer, unit, &mut bytes) {
        Ok(()) => Ok(bytes.as_slice().strip_suffix(b"\n") == Some(text.as_bytes())),
        Err(_) => Err(AllocError),
    }
}
