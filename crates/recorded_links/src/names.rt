//! The names of the files of a recording.
ghost use Rattle.std.specs.Prelude.{◌≡◌, ◌++◌, codes, decimal, string_bytes, IfOk};
ghost use Rattle.recorded_links.specs.Names.{stem_of, way_text};

use itoa::Buffer;
use rtt_base::NoMemory;
use std::alloc::Global;

/// Whether a recording is of what came of a link, or of what was given to it.
#[derive(Clone, Copy, Debug, PartialEq, Eq)]
pub enum Way {
    In,
    Out,
}

impl Way {
    /// What stands between the name of the leg and the number of the file.
    fn as_str(self) -> &'static str
        ensures { result.now ≡ way_text self }
    {
        match self {
            Way::In => ".in.",
            Way::Out => ".out.",
        }
    }
}

/// What the names of all files of a recording begin with: `PREFIX.NAME.in.` or `PREFIX.NAME.out.`.
pub fn stem_of(alloc: Global, prefix: &str, name: &str, way: Way) -> Result<String, NoMemory>
    ensures { IfOk result (λ text. string_bytes text ≡ stem_of prefix.now name.now way) }
{
    let mut text = String::from_str(alloc, prefix)?;
    text.push_str(".")?;
    text.push_str(name)?;
    text.push_str(way.as_str())?;
    Ok(text)
}

/// The name of the file of this number, from 1 on, of the recording whose names begin so.
pub fn file_name(alloc: Global, stem: &str, number: u64) -> Result<String, NoMemory>
    ensures { IfOk result (λ text. string_bytes text ≡ stem.now ++ decimal number ++ codes ".rtp") }
{
    let mut text = String::from_str(alloc, stem)?;
    text.push_str(Buffer::new().format(number))?;
    text.push_str(".rtp")?;
    Ok(text)
}
