//! What command words, scripts, frames and conferences mean, and a conference as it is kept: definitions and their laws, and
//! hardly any code.
#![tactic(auto)]

mod conference_lines;
mod conferences;
mod frame_kinds;
pub mod frame_laws;
pub mod frame_limits;
mod frames;
mod kinds;
mod laws;
mod legs;
pub mod limits;
mod names;
mod plans;
mod services;
mod speakers;

pub use conference_lines::{
    Form, GenerationsLine, LegLine, MixerLine, PlanLine, Stay, StayLine, What,
};
pub use conferences::Conference;
pub use frame_kinds::FrameKind;
pub use frames::{Frame, FrameRefusal};
pub use kinds::ConfKind;
pub use laws::{accepted_conferences_keep, crowds_are_seen};
pub use legs::{Legs, primary_limit, set_follow, set_generations, set_long, set_name, set_stay};
pub use names::{has_name, is_name_octet, name_of};
pub use plans::{Plan, is_planned};
pub use services::{OperatorLine, OperatorWord, RecordPrefix, Service, ServiceLine};
pub use speakers::{Speakers, others};
