//! The legs of a conference.
ghost use Rattle.std.specs.Prelude.{◌≡◌, ◌<◌, length};
ghost use Rattle.file_spec.specs.Conference.{change_leg, with_follow, with_generations, with_long, with_stay};
ghost use Rattle.file_spec.specs.Changes.{with_name};
ghost use Rattle.file_spec.specs.Primaries.{primary_limit};

use crate::{LegLine, Stay};
use rtt_base::limits::{MOST_PRIMARY_OCTETS, MOST_TEXT_OCTETS};
use rtt_base::{GrowingList, Name};

/// Legs in the file's order.
pub type Legs = GrowingList<LegLine>;

/// Gives a leg another name.
pub fn set_name(legs: &mut Legs, leg: usize, name: Name)
    requires { leg < length legs.old }
    ensures { legs.new ≡ change_leg (with_name name) leg legs.old }
{
    legs.item_mut(leg).name = name;
}

/// Tells how many redundant generations the terminal of a leg is sent.
pub fn set_generations(legs: &mut Legs, leg: usize, generations: u8)
    requires { leg < length legs.old }
    ensures { legs.new ≡ change_leg (with_generations generations) leg legs.old }
{
    legs.item_mut(leg).generations = generations;
}

/// Tells when a leg stays.
pub fn set_stay(legs: &mut Legs, leg: usize, stay: Stay)
    requires { leg < length legs.old }
    ensures { legs.new ≡ change_leg (with_stay stay) leg legs.old }
{
    legs.item_mut(leg).stay = stay;
}

/// Tells that a leg is followed.
pub fn set_follow(legs: &mut Legs, leg: usize)
    requires { leg < length legs.old }
    ensures { legs.new ≡ change_leg with_follow leg legs.old }
{
    legs.item_mut(leg).follow = true;
}

/// Tells that the packets of a leg may have long texts.
pub fn set_long(legs: &mut Legs, leg: usize)
    requires { leg < length legs.old }
    ensures { legs.new ≡ change_leg with_long leg legs.old }
{
    legs.item_mut(leg).long = true;
}

/// The most octets of a primary text in the packets of a leg.
pub fn primary_limit(long: bool) -> usize
    ensures { result ≡ primary_limit long }
{
    if long {
        MOST_PRIMARY_OCTETS
    } else {
        MOST_TEXT_OCTETS
    }
}
