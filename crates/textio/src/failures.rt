// What is said on standard error.
ghost use Rattle.std.specs.Prelude.{◌≤◌, ◌≡◌, OnOk, length};

use std::io::{Cursor, Error, Write};

// Why a run has ended before its input.
#[derive(Drop)]
pub enum Failure {
    Input(Error),
    Output(Error),
    // An answer has no room on an empty page.
    NoRoom,
    // The buffers don't hold what they are said to hold, or a run has used up its turns: neither comes.
    Unfit,
}

// A line on standard error, with the program's name: what failed, and why. Of a run that came to its end nothing is said.
pub fn tell<E: Write>(name: &[u8], errors: &mut E, ended: Result<(), Failure>)
    ensures quiet { OnOk ended (errors.new ≡ errors.old) }
{
    match ended {
        Ok(()) | Err(Failure::Unfit) => {}
        Err(Failure::NoRoom) => {
            say(errors, name);
            say(errors, b": an answer has no room\n");
        }
        Err(Failure::Input(error)) => tell_error(errors, name, b": standard input: ", &error),
        Err(Failure::Output(error)) => tell_error(errors, name, b": standard output: ", &error),
    }
}

fn tell_error<E: Write>(errors: &mut E, name: &[u8], what: &[u8], error: &Error) {
    let mut text = Cursor::new([0u8; 256]);
    let _ = write!(text, "{error}");
    let text = text.into_inner();
    say(errors, name);
    say(errors, what);
    say(errors, &text[..reason(&text)]);
    say(errors, b"\n");
}

// Standard error is the last place to say something: where it fails there is no other.
fn say<E: Write>(errors: &mut E, text: &[u8]) {
    let _ = errors.write_all(text);
}

// How many bytes of an error's text, which 0s follow, say the reason: the error's number stands behind it.
fn reason(text: &[u8]) -> usize
    ensures { result ≤ length text.now }
{
    for i in 0..text.len() {
        if text[i] == 0 || text[i..].starts_with(b" (os error ") {
            return i;
        }
    }
    text.len()
}
