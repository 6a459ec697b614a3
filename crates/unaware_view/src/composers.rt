//! The composer of one terminal.
ghost use Rattle.std.specs.Prelude.{◌≡◌, ℕ, ◌+◌, ◌-◌, ◌*◌, ◌<◌, ◌≤◌, ◌==◌, ◌&&◌, ◌||◌, ◌^◌, Bool, false, true, List, [], length, IfOk, IfSome, Some, None, is_some, IsUtf8};
ghost use Rattle.stream_spec.specs.Ready.{Chunk};
ghost use Rattle.mixer_spec.specs.Chunks.{front, joined};
ghost use Rattle.mixer_spec.specs.Laws.{AreTexts};
ghost use Rattle.mixer_spec.specs.Setups.{IsRoom, Setup};
ghost use Rattle.mixer_spec.specs.Table.{Table};
ghost use Rattle.mixer_places.specs.SlotStanding.{SlotsStandFor, LeadsSlots, SlotsTell};
ghost use Rattle.mixer_places.specs.Words.{fetched};
ghost use Rattle.unaware_view.specs.Runs.{GoesOn, Heads, IsRun, label_room};
ghost use Rattle.unaware_view.specs.declared.runs.Run.{Run};
ghost use Rattle.unaware_view.specs.Choices.{IsBelow, begins, choice, is_again, is_left, speaker_of};
ghost use Rattle.unaware_view.specs.Standing.{IsAsked, NoneWaits, OfAsks, ComposerStandsFor, answered, asked_now, given_now, legs_of, next_ask, own_of};
ghost use Rattle.mixer_spec.specs.Composed.{Asked, text_given};
ghost use Rattle.unaware_view.specs.Giving.{Gives, GivesHeaded, GivesMore, remembered, waits_of};
ghost use Rattle.unaware_view.specs.States.{State};
ghost use Rattle.unaware_view.specs.Insides.{state_of, ComposerIsSound};
ghost use Rattle.rtt_base.specs.declared.limits.TheConstants.{MOST_TEXT_OCTETS};

use crate::choices::{any_long, any_other, first_round, is_ago, is_paused, look, note};
use crate::labels::room_beside;
use crate::runs::Run;
use mixer_places::Slots;
use rtt_base::{Name, NoMemory, Text};
use std::alloc::Global;
use std::marker::Model;

/// How long, in milliseconds, a speaker of whom nothing waits is left in peace.
const PAUSE: u64 = 2000;

/// How long, in milliseconds, another one has to wait at most while a speaker goes on.
const PATIENCE: u64 = 7000;

/// The current speaker.
#[derive(Clone, Copy, Debug)]
struct Current {
    /// The number of its leg.
    speaker: usize,
    /// When text of it was last given, in milliseconds of media time.
    given_at: u64,
}

/// Who is given text.
#[derive(Clone, Copy, Debug)]
enum Choice {
    Nobody,
    /// A new run of this leg begins.
    Begins(usize),
    /// The run of this leg goes on.
    GoesOn(usize),
}

/// Puts the text of all legs into one for a terminal that shows one text: in runs, each behind its speaker's label.
///
/// Of what was given it keeps who speaks, what an erasure can take back of the run, what the run ends with, whether its
/// label was given, whether a line is open, and since when each other leg waits.
#[derive(Debug, Drop)]
pub struct Composer {
    own: usize,
    /// The most octets of a text.
    room: usize,
    current: Option<Current>,
    run: Run,
    /// Which legs waited at the last ask, but for the terminal's own.
    waits: Vec<bool>,
    /// For each leg the first ask at which it waited since it was last given.
    since: Vec<Option<u64>>,
    /// The least media time of the next ask.
    asked: u64,
    /// After how many milliseconds without text a run that goes on is labelled again, if it is.
    relabel: Option<u32>,
    /// What was taken of a leg last, as it came.
    taken: Text,
}

impl Model for Composer {
    ghost Value = { State };

    ghost view = { state_of };

    ghost invariant = { ComposerIsSound };
}

impl Composer {
    /// Whether the speaker is left for another one.
    fn is_left(&self, current: Current, media: u64) -> bool
        requires { current.speaker < length self.now.waits }
        ensures { result ≡ is_left self.now current media }
    {
        let speaker = current.speaker;
        let other = any_other(&self.waits, speaker);
        let ends = self.run.ends_turn();
        let paused = is_paused(self.waits[speaker], PAUSE, media, current.given_at);
        let long = any_long(&self.waits, &self.since, PATIENCE, media, speaker);
        self.run.has_chunk && (other && (ends || (paused || long)))
    }

    /// Whether the run of the speaker is labelled again, if more of it is given.
    fn is_again(&self, current: Current, media: u64) -> bool
        ensures { result ≡ is_again self.now current media }
    {
        match self.relabel {
            Some(ms) => {
                let long = is_ago(u64::from(ms), media, Some(current.given_at));
                self.run.has_chunk && long
            }
            None => false,
        }
    }

    /// Who is given text at this media time, in milliseconds, where text may be given.
    fn choose(&self, due: bool, media: u64) -> Choice
        ensures choice { result ≡ choice self.now due media }
        ensures leg { IsBelow (length self.now.since) result }
    {
        if !due {
            return Choice::Nobody;
        }
        let Some(current) = self.current else {
            return begins(first_round(&self.waits, 0));
        };
        if self.is_left(current, media) {
            return begins(first_round(&self.waits, current.speaker + 1));
        }
        if !self.waits[current.speaker] {
            return Choice::Nobody;
        }
        if self.is_again(current, media) {
            return Choice::Begins(current.speaker);
        }
        Choice::GoesOn(current.speaker)
    }

    /// The composer of the terminal of this leg, where there are so many legs, and a text has `room` octets at most. A run that
    /// goes on is labelled again after `relabel` milliseconds without text, if at all. It takes all memory that it ever needs.
    pub fn new(
        alloc: Global,
        legs: usize,
        own: usize,
        room: usize,
        relabel: Option<u32>,
    ) -> Result<Composer, NoMemory>
        requires own { own < legs }
        requires room { IsRoom room }
        ensures stands { IfOk result (λ c. (s : Setup) → s.legs ≡ legs → s.room own ≡ room → s.relabel ≡ relabel
            → ComposerStandsFor s c []) }
        ensures own { IfOk result (λ c. own_of c ≡ own) }
        ensures legs { IfOk result (λ c. legs_of c ≡ legs) }
        ensures next { IfOk result (λ c. next_ask c ≡ 0) }
    {
        Ok(Composer {
            own,
            room,
            current: None,
            run: Run::new(),
            waits: vec![in alloc; false; legs]?,
            since: vec![in alloc; None; legs]?,
            asked: 0,
            relabel,
            taken: Text::new(),
        })
    }

    /// One ask, at a turn of this media time in milliseconds, where text may be given or not. Puts into `text` what is
    /// given, takes its chunks from what waits at the terminal, and answers whether anything was given.
    ///
    /// Of the names each has its leg's number.
    pub fn turn(
        &mut self,
        media: u64,
        due: bool,
        names: &[Name],
        slots: &mut Slots,
        text: &mut Text,
    ) -> bool
        requires slots { length slots.old ≡ legs_of self.old }
        requires names { length names.now ≡ legs_of self.old }
        requires rises { next_ask self.old ≤ media }
        requires media { media < 2 ^ 54 }
        ensures given { OfAsks self.old slots.old names.now (λ s table asks.
            result ≡ is_some (given_now s table self.old media due asks)) }
        ensures text { OfAsks self.old slots.old names.now (λ s table asks.
            text.new ≡ text_given (given_now s table self.old media due asks)) }
        ensures stands { OfAsks self.old slots.old names.now (λ s table asks.
            ComposerStandsFor s self.new (asked_now s table self.old media due asks)) }
        ensures waits { OfAsks self.old slots.old names.now (λ s table asks.
            SlotsStandFor s slots.new (answered (own_of self.old) (given_now s table self.old media due asks) table)) }
        ensures legs { length slots.new ≡ length slots.old }
        ensures same { (own_of self.new ≡ own_of self.old) × (legs_of self.new ≡ legs_of self.old) }
        ensures next { next_ask self.new ≡ media + 1 }
    {
        text.clear();
        look(&mut self.waits, self.own, slots);
        let choice = self.choose(due, media);
        self.asked = media + 1;
        let given = give(
            choice,
            self.own,
            self.room,
            names,
            &mut self.run,
            &mut self.taken,
            slots,
            text,
        );
        note(&mut self.since, &self.waits, given, media);
        self.remember(given, media);
        given.is_some()
    }

    /// One ask, at a turn of this media time in milliseconds, at which no other leg waits at the terminal, so that nothing is
    /// given.
    pub fn pass(&mut self, media: u64)
        requires rises { next_ask self.old ≤ media }
        requires media { media < 2 ^ 54 }
        ensures stands { (s : Setup) (table : Table) (due : Bool) (asks : List Asked)
            → ComposerStandsFor s self.old asks
            → NoneWaits s table self.old → ComposerStandsFor s self.new (asked_now s table self.old media due asks) }
        ensures same { (own_of self.new ≡ own_of self.old) × (legs_of self.new ≡ legs_of self.old) }
        ensures next { next_ask self.new ≡ media + 1 }
    {
        self.asked = media + 1;
    }

    /// Remembers who was given text at this media time, if anybody was.
    fn remember(&mut self, given: Option<usize>, media: u64)
        requires { IfSome given (λ s. s < length self.old.since) }
        ensures { self.new ≡ remembered self.old given media }
    {
        if let Some(speaker) = given {
            self.current = Some(Current {
                speaker,
                given_at: media,
            });
        }
    }
}

/// Whether one of these holds.
fn or(a: bool, b: bool) -> bool
    ensures { result ≡ (a || b) }
{
    a || b
}

/// Appends to `text` what was taken for the run, as it is sent.
fn write(octets: &[u8], name: &str, run: &mut Run, text: &mut Text)
    requires utf8 { IsUtf8 octets.now }
    requires fits { length text.old + label_room run.old.labelled name.now + length octets.now ≤ MOST_TEXT_OCTETS }
    requires few { run.old.erasable + MOST_TEXT_OCTETS < 2 ^ 64 }
    ensures few { run.new.erasable ≤ run.old.erasable + MOST_TEXT_OCTETS }
    ensures goes_on { (alone behind_cr : Bool) (before : List ℕ) (chunks : List Chunk)
        → IsRun run.old alone behind_cr before → AreTexts chunks → octets.now ≡ joined chunks
        → GoesOn name.now run.old run.new alone behind_cr before chunks text.old text.new }
{
    let Ok(taken) = str::from_utf8(octets) else {
        unreachable!()
    };
    let has_chunk = or(run.has_chunk, !taken.is_empty());
    run.write(name, taken, text);
    run.has_chunk = has_chunk;
}

/// Gives what fits of the chunks of the leg that wait. The label of its run was given.
fn go_on(
    own: usize,
    room: usize,
    speaker: usize,
    name: &str,
    run: &mut Run,
    taken: &mut Text,
    slots: &mut Slots,
    text: &mut Text,
)
    requires within { (own < length slots.old) × (speaker < length slots.old) }
    requires room { IsRoom room }
    requires few { run.old.erasable + MOST_TEXT_OCTETS < 2 ^ 64 }
    requires text { text.old ≡ [] }
    requires labelled { run.old.labelled ≡ true }
    ensures few { run.new.erasable ≤ run.old.erasable + MOST_TEXT_OCTETS }
    ensures legs { length slots.new ≡ length slots.old }
    ensures slots { LeadsSlots slots.old slots.new (fetched own speaker room) }
    ensures goes_on { SlotsTell slots.old (λ s table. (alone behind_cr : Bool) (before : List ℕ)
        → AreTexts (waits_of table own speaker) → IsRun run.old alone behind_cr before
        → GoesOn name.now run.old run.new alone behind_cr before (front room (waits_of table own speaker)) [] text.new) }
{
    taken.clear();
    slots.take(own, speaker, room, taken);
    write(taken.as_slice(), name, run, text);
}

/// Gives what was taken for the run, whose label is to come, or the label alone where nothing was.
fn head(octets: &[u8], name: &str, run: &mut Run, text: &mut Text)
    requires utf8 { IsUtf8 octets.now }
    requires fits { label_room false name.now + length octets.now ≤ MOST_TEXT_OCTETS }
    requires few { run.old.erasable + MOST_TEXT_OCTETS < 2 ^ 64 }
    requires text { text.old ≡ [] }
    requires labelled { run.old.labelled ≡ false }
    ensures few { run.new.erasable ≤ run.old.erasable + MOST_TEXT_OCTETS }
    ensures heads { (behind_cr : Bool) (before : List ℕ) (chunks : List Chunk)
        → IsRun run.old false behind_cr before → AreTexts chunks → octets.now ≡ joined chunks
        → Heads name.now run.old run.new behind_cr before chunks text.new }
{
    if octets.is_empty() {
        run.begin_alone(name, text);
        return;
    }
    write(octets, name, run, text);
}

/// Gives what fits beside the label of the run, which is to come, of the chunks of the leg that wait.
fn give_headed(
    own: usize,
    room: usize,
    speaker: usize,
    name: &Name,
    run: &mut Run,
    taken: &mut Text,
    slots: &mut Slots,
    text: &mut Text,
)
    requires within { (own < length slots.old) × (speaker < length slots.old) }
    requires room { IsRoom room }
    requires few { run.old.erasable + MOST_TEXT_OCTETS < 2 ^ 64 }
    requires text { text.old ≡ [] }
    requires labelled { run.old.labelled ≡ false }
    ensures few { run.new.erasable ≤ run.old.erasable + MOST_TEXT_OCTETS }
    ensures legs { length slots.new ≡ length slots.old }
    ensures gives { SlotsTell slots.old (λ s table. (behind_cr : Bool) (before : List ℕ)
        → AreTexts (waits_of table own speaker) → IsRun run.old false behind_cr before
        → GivesHeaded s table own room name.now run.old run.new behind_cr before speaker text.new slots.new) }
{
    let beside = room_beside(room, name);
    taken.clear();
    slots.take(own, speaker, beside, taken);
    head(taken.as_slice(), name.as_str(), run, text);
}

/// Gives text of the run's speaker.
fn give_more(
    own: usize,
    room: usize,
    speaker: usize,
    name: &Name,
    run: &mut Run,
    taken: &mut Text,
    slots: &mut Slots,
    text: &mut Text,
)
    requires within { (own < length slots.old) × (speaker < length slots.old) }
    requires room { IsRoom room }
    requires few { run.old.erasable + MOST_TEXT_OCTETS < 2 ^ 64 }
    requires text { text.old ≡ [] }
    ensures few { run.new.erasable ≤ run.old.erasable + MOST_TEXT_OCTETS }
    ensures legs { length slots.new ≡ length slots.old }
    ensures gives { SlotsTell slots.old (λ s table. (alone behind_cr : Bool) (before : List ℕ)
        → AreTexts (waits_of table own speaker) → IsRun run.old alone behind_cr before
        → GivesMore s table own room name.now run.old run.new alone behind_cr before speaker text.new slots.new) }
{
    if run.labelled {
        go_on(own, room, speaker, name.as_str(), run, taken, slots, text);
    } else {
        give_headed(own, room, speaker, name, run, taken, slots, text);
    }
}

/// Gives the text of the choice, and answers whose it is.
fn give(
    choice: Choice,
    own: usize,
    room: usize,
    names: &[Name],
    run: &mut Run,
    taken: &mut Text,
    slots: &mut Slots,
    text: &mut Text,
) -> Option<usize>
    requires own { own < length slots.old }
    requires room { IsRoom room }
    requires names { length names.now ≡ length slots.old }
    requires leg { IsBelow (length slots.old) choice }
    requires few { run.old.erasable + MOST_TEXT_OCTETS < 2 ^ 64 }
    requires text { text.old ≡ [] }
    ensures speaker { result ≡ speaker_of choice }
    ensures few { run.new.erasable ≤ run.old.erasable + MOST_TEXT_OCTETS }
    ensures legs { length slots.new ≡ length slots.old }
    ensures gives { SlotsTell slots.old (λ s table. (alone behind_cr : Bool) (before : List ℕ)
        → ((i : ℕ) → AreTexts (waits_of table own i)) → IsRun run.old alone behind_cr before
        → Gives s table own room names.now run.old run.new alone behind_cr before choice text.new slots.new) }
{
    match choice {
        Choice::Nobody => None,
        Choice::Begins(speaker) => {
            run.begin();
            give_headed(own, room, speaker, &names[speaker], run, taken, slots, text);
            Some(speaker)
        }
        Choice::GoesOn(speaker) => {
            give_more(own, room, speaker, &names[speaker], run, taken, slots, text);
            Some(speaker)
        }
    }
}

/// A run of the leg begins, where there is one.
fn begins(speaker: Option<usize>) -> Choice
    ensures { result ≡ begins speaker }
{
    match speaker {
        Some(speaker) => Choice::Begins(speaker),
        None => Choice::Nobody,
    }
}
