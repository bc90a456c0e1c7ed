ghost use Rattle.std.specs.Prelude.{◌≡◌};
ghost use Rattle.std.specs.Option.{option_map};
ghost use Rattle.easybook.specs.Split.{IsCut, is_mark};

use memchr::memchr;

fn is_mark(line: &[u8]) -> bool
    ensures { result ≡ is_mark line.now }
{
    line == b"%".as_slice() || line == b"%\r".as_slice()
}

/// Cuts the program's input into a log and a script: the bytes before the first line that is `%`,
/// or `%` and one carriage return, and the bytes after that line, which may lack its line feed
/// where it is the last. Where there is no such line all bytes are the log, and there is no script.
pub fn split_input(input: &[u8]) -> (&[u8], Option<&[u8]>)
    ensures { IsCut input.now result.0.now (option_map (λ script. script.now) result.1) }
{
    let mut at = 0;
    // The place of a percent sign, the next one when it was looked for.
    let mut percent = 0;
    'lines: while at < input.len() {
        let rest = &input[at..];
        if percent <= at {
            let Some(place) = memchr(b'%', rest) else {
                return (input, None);
            };
            percent = at.saturating_add(place);
        }
        let Some(end) = memchr(b'\n', rest) else {
            if is_mark(rest) {
                return (&input[..at], Some(&[]));
            }
            return (input, None);
        };
        if is_mark(&rest[..end]) {
            return (&input[..at], Some(&rest[end + 1..]));
        }
        at += end + 1;
    }
    (input, None)
}
