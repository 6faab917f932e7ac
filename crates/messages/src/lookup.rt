// Which message a PGN is.
ghost use Rattle.std.specs.Prelude.{◌≡◌};
ghost use Rattle.messages.specs.Messages.{message_of_lem};

use crate::Message;

const PGN_129025: u32 = 0x01_f801;

const PGN_129026: u32 = 0x01_f802;

const PGN_129029: u32 = 0x01_f805;

const PGN_130900: u32 = 0x01_ff54;

// The message of a PGN, if it is a built-in one: all of its bits are compared.
pub fn message_of(pgn: u32) -> Option<Message>
    ensures { result ≡ message_of_lem pgn }
{
    match pgn {
        PGN_129025 => Some(Message::M129025),
        PGN_129026 => Some(Message::M129026),
        PGN_129029 => Some(Message::M129029),
        PGN_130900 => Some(Message::M130900),
        _ => None,
    }
}
