//! Reading of the line with which a recording begins.
ghost use Rattle.std.specs.Prelude.{◌≡◌, ◌≤◌, Ok, true, false, IfOk, IfSome};

use crate::inputs::Input;
use rtt_base::Failed;
use rtt_io::Source;

impl<S: Source> Input<S> {
    ghost use Rattle.rtpdump_io.specs.Input.{CountsFaults, HandsOut};
    ghost use Rattle.rtpdump_io.specs.Line.{BeginsOtherwise, IsPastLine, IsLessBy};

    /// Whether these octets come next. They are passed over, or some of them.
    pub fn begins_with(&mut self, expected: &[u8]) -> Result<bool, Failed>
        ensures counts { CountsFaults S.faults S.name self.old.source self.new.source result }
        ensures yes { S.tells → result ≡ Ok true → HandsOut S.left self.old self.new expected.now }
        ensures no { S.tells → result ≡ Ok false → BeginsOtherwise S.left self.old expected.now }
    {
        for place in 0..expected.len() {
            match self.octet()? {
                Some(octet) if octet == expected[place] => {}
                _ => return Ok(false),
            }
        }
        Ok(true)
    }

    /// Passes over the first line feed among so many octets, and answers how many octets that were.
    pub fn past_line(&mut self, most: u8) -> Result<Option<u8>, Failed>
        ensures counts { CountsFaults S.faults S.name self.old.source self.new.source result }
        ensures fits { IfOk result (λ line. IfSome line (λ number. number ≤ most)) }
        ensures line { S.tells → IfOk result (λ line. IsPastLine S.left self.old self.new most line) }
        ensures number { S.tells → IfOk result (λ line. IsLessBy S.left self.old self.new line) }
    {
        for place in 0..most {
            match self.octet()? {
                Some(b'\n') => return Ok(Some(place + 1)),
                Some(_) => {}
                None => return Ok(None),
            }
        }
        Ok(None)
    }
}
