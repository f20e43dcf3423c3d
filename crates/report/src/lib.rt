// What the programs tell on standard error: each message goes out in one write up to the reason. What is printed of a message is an
// equation (`message`); that it is written, no contract can say.
#![tactic(auto)]

ghost use Rattle.message.specs.Clauses.{IndexFits};

use message::{MESSAGE_ROOM, Message, put_message};
use std::fmt::InlineText;
use std::io::{Error, Print, Stderr};

// The most bytes of a reason.
const REASON_MOST: usize = 128;

// What std puts between the system's words for an error and its number.
const BEFORE_NUMBER: &str = " (os error ";

pub fn tell(stderr: &Stderr, program: &[u8], message: Message<'_>)
    requires { IndexFits message }
{
    let mut text = [0u8; MESSAGE_ROOM];
    let length = put_message(&mut text, program, message);
    let _ = stderr.write_all(&text[..length]);
}

// Tells a message, and ends it with a reason: the words of an error, without the system's number for it.
pub fn fail(stderr: &Stderr, program: &[u8], message: Message<'_>, error: Error)
    requires { IndexFits message }
{
    let told = InlineText::<REASON_MOST>::of(error);
    let text = told.as_str();
    let reason = match text.split_once(BEFORE_NUMBER) {
        Some((words, _)) => words,
        None => text,
    };
    tell(stderr, program, message);
    let _ = stderr.println(format_args!(": {reason}"));
}
