// The line at the front of bytes.
ghost use Rattle.std.specs.Prelude.{◌<◌, IfSome};
ghost use Rattle.pb_file.specs.Line.{Appends, BeginsWithLine};

use line_escape::line_len;

// What the bytes have of a line.
#[derive(Clone, Copy)]
pub enum LineTaken {
    Whole,
    Part,
    Memory,
}

// Appends the bytes up to the first newline, or all where there is none.
pub fn take_line(bytes: &[u8], line: &mut Vec<u8>) -> LineTaken
    ensures { Appends bytes.now line.old.items line.new.items result }
{
    let len = line_len(bytes);
    let (front, _) = bytes.split_at(len);
    if line.extend_from_slice(front).is_err() {
        return LineTaken::Memory;
    }
    if len < bytes.len() {
        LineTaken::Whole
    } else {
        LineTaken::Part
    }
}

// The bytes before the first newline, where there is one.
#[inline(always)]
pub fn front_line(bytes: &[u8]) -> Option<&[u8]>
    ensures { IfSome result (λ line. BeginsWithLine bytes.now line.now) }
{
    let len = line_len(bytes);
    let (line, _) = bytes.split_at(len);
    if len < bytes.len() { Some(line) } else { None }
}
