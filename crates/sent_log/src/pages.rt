//! A page of octets.
ghost use Rattle.std.specs.Prelude.{◌≡◌, ◌+◌, ◌≤◌, ◌++◌, [], drop, length, take, IfOk};

use rtt_base::{Full, NoMemory, OctetBuffer};
use std::alloc::Global;
use std::marker::Model;

/// How many octets fit in a page.
pub const PAGE_OCTETS: usize = 65_536;

/// Octets on their way to a sink, at most 65,536 of them. All memory is taken when the page is made.
#[derive(Debug, Drop)]
pub struct Page {
    octets: Vec<u8>,
    len: usize,
}

impl Model for Page {
    ghost use Rattle.std.specs.Prelude.{ℕ, List, ◌≡◌, ◌≤◌, length, take};
    ghost use Rattle.sent_log.specs.declared.pages.TheConstants.{PAGE_OCTETS};

    ghost Value = { List ℕ };

    ghost view = { λ p. take p.len p.octets.items };

    ghost invariant = { λ p. (p.len ≤ PAGE_OCTETS) × (length p.octets.items ≡ PAGE_OCTETS) };
}

/// So many octets, each 0.
fn blank(alloc: Global, size: usize) -> Result<Vec<u8>, NoMemory>
    ensures { IfOk result (λ octets. length octets.items ≡ size) }
{
    Ok(vec![in alloc; 0u8; size]?)
}

impl Page {
    /// A page without octets.
    pub fn new(alloc: Global) -> Result<Page, NoMemory>
        ensures { IfOk result (λ page. page ≡ []) }
    {
        let octets = blank(alloc, PAGE_OCTETS)?;
        Ok(Page { octets, len: 0 })
    }

    pub fn as_slice(&self) -> &[u8]
        ensures { result.now ≡ self.now }
    {
        &self.octets[..self.len]
    }

    /// Writes these octets in place of those that stand from `place` on.
    #[inline(always)]
    pub fn overwrite(&mut self, place: usize, octets: &[u8])
        requires { place + length octets.now ≤ length self.old }
        ensures { self.new ≡ take place self.old ++ (octets.now ++ drop (place + length octets.now) self.old) }
    {
        // so that the proof sees how many there are
        let _len = self.len;
        let end = place + octets.len();
        self.octets[place..end].copy_from_slice(octets);
    }

    pub fn clear(&mut self)
        ensures { self.new ≡ [] }
    {
        self.len = 0;
    }
}

impl OctetBuffer for Page {
    ghost use Rattle.std.specs.Prelude.{Some};
    ghost use Rattle.sent_log.specs.declared.pages.TheConstants.{PAGE_OCTETS};

    type Refusal = Full;

    ghost written = { λ octets. octets };

    ghost greatest = { Some PAGE_OCTETS };

    fn len(&self) -> usize {
        self.len
    }

    fn append(&mut self, octets: &[u8]) -> Result<(), Full> {
        if octets.len() > PAGE_OCTETS - self.len {
            return Err(Full);
        }
        let end = self.len + octets.len();
        self.octets[self.len..end].copy_from_slice(octets);
        self.len = end;
        Ok(())
    }

    fn truncate(&mut self, len: usize) {
        self.len = self.len.min(len);
    }
}
