//! What was sent, as it will be heard and written.
ghost use Rattle.std.specs.Prelude.{◌≡◌, IfOk};
ghost use Rattle.file_spec.specs.Conferences.{meaning_of};
ghost use Rattle.rtt_mix.specs.Logs.{IsNew};

use file_spec::Conference;
use link_io::Beat;
use mixer::Post;
use mixer_posts::{PostSink, sources_to, stream_to};
use rtt_base::NoMemory;
use sent_log::SentLog;
use std::alloc::Global;
use std::marker::Model;

/// What was sent to each terminal of a conference.
#[derive(Drop)]
pub(crate) struct Log {
    sent: SentLog,
}

impl Model for Log {
    ghost use Rattle.sent_log.specs.States.{State};

    ghost Value = { State };

    ghost view = { λ l. l.sent };
}

impl Log {
    /// A log of this conference's terminals, to which nothing was sent.
    pub(crate) fn new(alloc: Global, conference: &Conference) -> Result<Log, NoMemory>
        ensures { IfOk result (IsNew (meaning_of conference.now)) }
    {
        let mut sent = SentLog::new(alloc, conference.legs.len())?;
        for own in 0..conference.legs.len() {
            let stream = stream_to(conference, own);
            let sources = sources_to(alloc, conference, own)?;
            sent.add(alloc, stream, sources)?;
        }
        Ok(Log { sent })
    }

    /// What was sent.
    pub(crate) fn into_sent(self) -> SentLog
        ensures { result ≡ self }
    {
        let Log { sent } = self;
        sent
    }
}

impl PostSink for Log {
    ghost use Rattle.std.proofs.Common.{rules};
    ghost use Rattle.std.specs.Prelude.{◌^◌, []};
    ghost use Rattle.rtt_mix.specs.Logs.{HasSent, sources_in};

    type Fault = NoMemory;

    type Clock = ();

    ghost took = { λ log s payload_types posts. HasSent s payload_types log posts };

    ghost halted = { λ log s payload_types posts now post. Unit {0} };

    ghost sources = { λ log. sources_in log };

    ghost addresses = { λ log. [] };

    ghost horizon = { 2 ^ 32 };

    ghost unsent = { λ log why. Unit {0} };

    fn send(&mut self, now: u64, _beat: &Beat<'_, ()>, post: &Post) -> Result<(), NoMemory> {
        let text = post.text.as_slice();
        self.sent
            .send(post.terminal, now as u32, post.media, post.source, text)
    }

    ghost in_time = { Prim.search rules };
}
