//! Who holds which place.
ghost use Rattle.std.specs.Prelude.{ℕ, ◌≡◌, ◌<◌, ◌≤◌, None, length, IfOk, IfSome, is_some};
ghost use Rattle.mixer_spec.specs.Rounds.{count_below, first_from};
ghost use Rattle.mixer_spec.specs.Setups.{Setup};
ghost use Rattle.mixer_spec.specs.Table.{Table, admitted, free_place, freed, hushed, is_seated, leg_in, no_seats};
ghost use Rattle.mixer_places.specs.States.{State};
ghost use Rattle.mixer_places.specs.Insides.{state_of, IsSeating};
ghost use Rattle.mixer_places.specs.Places.{has_place, is_vacant};

use mixer_spec::limits::PLACES;
use rtt_base::NoMemory;
use std::alloc::Global;
use std::marker::Model;

/// What is kept of a leg: the place that it holds, whether it came, and whether it listens.
#[derive(Clone, Copy, Debug)]
pub struct Seat {
    pub place: Option<usize>,
    pub came: bool,
    pub listens: bool,
}

/// A seat of each leg, and of each place the leg that holds it. It takes all memory when it is made.
#[derive(Drop)]
pub struct SeatingPlan {
    seats: Vec<Seat>,
    holders: [Option<usize>; PLACES],
    /// Neither this place nor one behind it was ever held.
    reach: usize,
}

impl Model for SeatingPlan {
    ghost Value = { State };

    ghost view = { state_of };

    ghost invariant = { IsSeating };
}

/// The first place that no leg holds.
fn first_vacant(holders: &[Option<usize>]) -> Option<usize>
    ensures { result ≡ first_from (is_vacant holders.now) 0 (length holders.now) }
{
    for place in 0..holders.len() {
        if holders[place].is_none() {
            return Some(place);
        }
    }
    None
}

impl SeatingPlan {
    ghost use Rattle.mixer_places.specs.SeatStanding.{SeatingStandsFor, SeatingTells, LeadsSeats};

    /// No leg came.
    pub fn new(alloc: Global, legs: usize) -> Result<SeatingPlan, NoMemory>
        ensures legs { IfOk result (λ seating. length seating.legs ≡ legs) }
        ensures stands { IfOk result (λ seating. (s : Setup) → s.legs ≡ legs → s.places ≡ PLACES
            → SeatingStandsFor s seating no_seats) }
    {
        let seat = Seat {
            place: None,
            came: false,
            listens: false,
        };
        let seats = vec![in alloc; seat; legs]?;
        Ok(SeatingPlan {
            seats,
            holders: [None; PLACES],
            reach: 0,
        })
    }

    /// The number of legs.
    pub fn legs(&self) -> usize
        ensures { result ≡ length self.now.legs }
    {
        self.seats.len()
    }

    /// The leg, which holds no place, comes to the lowest that is free, and listens or not. False where all are held; then
    /// all is as before.
    pub fn admit(&mut self, leg: usize, listens: bool) -> bool
        requires { leg < length self.old.legs }
        ensures legs { length self.new.legs ≡ length self.old.legs }
        ensures free { SeatingTells self.old (λ s table. result ≡ is_some (free_place s table.seats)) }
        ensures stands { SeatingTells self.old (λ s table. table.seats.place leg ≡ None
            → SeatingStandsFor s self.new (admitted s leg listens table).seats) }
    {
        let Some(place) = first_vacant(&self.holders) else {
            return false;
        };
        let reach = self.reach.max(place + 1);
        self.holders[place] = Some(leg);
        self.seats[leg] = Seat {
            place: Some(place),
            came: true,
            listens,
        };
        self.reach = reach;
        true
    }

    /// The leg listens no more.
    pub fn hush(&mut self, leg: usize)
        requires { leg < length self.old.legs }
        ensures legs { length self.new.legs ≡ length self.old.legs }
        ensures stands { LeadsSeats self.old self.new (hushed leg) }
    {
        self.seats[leg].listens = false;
    }

    /// The place of the leg is free again.
    pub fn free(&mut self, leg: usize)
        requires { leg < length self.old.legs }
        ensures legs { length self.new.legs ≡ length self.old.legs }
        ensures stands { LeadsSeats self.old self.new (freed leg) }
    {
        if let Some(place) = self.seats[leg].place {
            self.holders[place] = None;
            self.seats[leg].place = None;
        }
    }

    /// The place that the leg holds.
    pub fn place_of(&self, leg: usize) -> Option<usize>
        requires { leg < length self.now.legs }
        ensures place { SeatingTells self.now (λ s table. result ≡ table.seats.place leg) }
        ensures within { IfSome result (λ place. place < PLACES) }
    {
        self.seats[leg].place
    }

    /// No leg holds this place or one behind it.
    pub fn reach(&self) -> usize
        ensures vacant { SeatingTells self.now (λ s table. (place : ℕ) → result ≤ place → place < PLACES
            → leg_in table.seats s.legs place ≡ None) }
        ensures within { result ≤ PLACES }
    {
        self.reach
    }

    /// The leg that holds the place.
    pub fn leg_at(&self, place: usize) -> Option<usize>
        requires { place < PLACES }
        ensures leg { SeatingTells self.now (λ s table. result ≡ leg_in table.seats s.legs place) }
        ensures within { IfSome result (λ leg. leg < length self.now.legs) }
    {
        self.holders[place]
    }

    /// Whether the leg holds a place. No more legs do than there are places.
    pub fn is_seated(&self, leg: usize) -> bool
        requires { leg < length self.now.legs }
        ensures table { SeatingTells self.now (λ s table. result ≡ is_seated table.seats leg) }
        ensures place { result ≡ has_place self.now leg }
        ensures few { count_below (has_place self.now) (length self.now.legs) ≤ PLACES }
    {
        self.seats[leg].place.is_some()
    }

    /// Whether the leg came.
    pub fn has_come(&self, leg: usize) -> bool
        requires { leg < length self.now.legs }
        ensures { SeatingTells self.now (λ s table. result ≡ table.seats.came leg) }
    {
        self.seats[leg].came
    }

    /// Whether the leg listens.
    pub fn is_listening(&self, leg: usize) -> bool
        requires { leg < length self.now.legs }
        ensures { SeatingTells self.now (λ s table. result ≡ table.seats.listens leg) }
    {
        self.seats[leg].listens
    }
}
