// The talks of a dial in memory. One more takes no memory, since its room was made before.
ghost use Rattle.std.specs.Prelude.{◌≡◌, ◌++◌, ◌∷◌, [], string_bytes, IfOk, option_map};
ghost use Rattle.swf_connect.specs.Spoken.{last_of, talk_of};

use std::alloc::{AllocError, Global};
use std::marker::Model;

/// What was said on a link: to whom, all bytes that it gave or had left, and those that were written.
#[derive(Drop)]
pub struct Spoken {
    pub host: String,
    pub port: u16,
    pub bytes: Vec<u8>,
    pub written: Vec<u8>,
}

/// Talks in order.
#[cycle(talks)]
#[derive(Drop)]
pub struct Talks {
    last: Last,
}

#[cycle(talks)]
#[derive(Drop)]
enum Last {
    None,
    One(Box<Told>),
}

/// A talk, and those before it.
#[cycle(talks)]
#[derive(Drop)]
struct Told {
    talk: Spoken,
    before: Talks,
}

/// Room for a talk.
#[derive(Drop)]
pub struct Room {
    told: Box<Told>,
}

impl Model for Talks {
    ghost use Rattle.std.specs.Prelude.{List, length};
    ghost use Rattle.swf_connect.specs.Talks.{Talk};

    ghost Value = { List Talk };

    ghost use Rattle.swf_connect.specs.TalkList.{talks_in};

    ghost view = { λ t. talks_in t.last };

    ghost size = { length };

    ghost use Rattle.std.proofs.Common.{arith, length-append};

    ghost size_decreases = { λ a h. Prim.grind (arith, length-append) };
}

impl Room {
    pub fn new(alloc: Global) -> Result<Room, AllocError> {
        let talk = Spoken {
            host: String::new(alloc),
            port: 0,
            bytes: Vec::new(alloc),
            written: Vec::new(alloc),
        };
        let before = Talks { last: Last::None };
        let told = Box::new(alloc, Told { talk, before })?;
        Ok(Room { told })
    }
}

impl Talks {
    /// No talks.
    pub fn none() -> Talks
        ensures { result ≡ [] }
    {
        Talks { last: Last::None }
    }

    /// These, and one more in its room. It takes no memory.
    pub fn with(self, room: Room, talk: Spoken) -> Talks
        ensures { result ≡ self ++ talk_of talk ∷ [] }
    {
        let Room { mut told } = room;
        *told = Told { talk, before: self };
        Talks {
            last: Last::One(told),
        }
    }

    /// The last of them.
    pub fn last(&self) -> Option<&Spoken>
        ensures { option_map (λ talk. talk_of talk.now) result ≡ last_of self.now }
    {
        match &self.last {
            Last::None => None,
            Last::One(told) => Some(&told.talk),
        }
    }
}
