//! The words of codes and causes.
ghost use Rattle.dist_c_guest.specs.{Words.code_word, Words.IsWordOf, Steps.Copies};

use dist_c_guest::{NO_SUCH, code_word, copy_out, why_of};

/// Copies the word of a code.
#[unsafe(no_mangle)]
pub extern "C" fn dn_code_name(code: u32, room: &mut [u8], len: &mut usize) -> u32
    ensures { Copies (code_word code) result len.new room.old room.new }
{
    copy_out(code_word(code).as_bytes(), room, len)
}

/// Copies the word of a cause.
#[unsafe(no_mangle)]
pub extern "C" fn dn_why_name(why: u32, room: &mut [u8], len: &mut usize) -> u32
    ensures { IsWordOf why result len.old len.new room.old room.new }
{
    match why_of(why) {
        Some(why) => copy_out(why.name().as_bytes(), room, len),
        None => NO_SUCH,
    }
}
