//! The component that updates masters by details.

ghost use Rattle.std.specs.Prelude.{◌≡◌, ◌<◌, ◌≤◌, []};
ghost use Rattle.flow_packet.specs.Held.{held_of};
ghost use Rattle.flow_packet.specs.Hands.{text_at};
ghost use Rattle.flow_component.specs.Alone.{HoldsOnly};
ghost use Rattle.flow_component.specs.Resumes.{Resumes};
ghost use Rattle.flow_batch.specs.Around.{Outside, InGroup, UpdateState};

use crate::records::{Posting, line, posted};
use flow_component::{Answer, Component, Fail, Port, Shape, Stop, Wish};
use flow_packet::{Hands, Kind, PacketId};
use std::alloc::Global;
use std::marker::Model;

const IN: Port = Port(0);

const OUT: Port = Port(0);

const REP: Port = Port(1);

/// Updates masters by details.
///
/// It gets groups: an Open packet with the key, records of the key, masters before details, and a Close packet. Each record that is
/// applied changes the balance of its group. At the end of a group a new master is made of the balance, if there is one, and goes to
/// the first output. What is refused goes to the second one, or is dropped where that isn't connected.
#[derive(Drop)]
pub struct Update {
    alloc: Global,
    keylen: u32,
    rep: bool,
    in_group: bool,
    key: Vec<u8>,
    balance: Option<u64>,
}

impl Model for Update {
    ghost use Rattle.std.specs.Prelude.{◌≡◌, ◌≤◌, length, if◌then◌else◌};
    ghost use Rattle.std.specs.Option.{IfSome};
    ghost use Rattle.flow_batch.specs.Around.{Outside, InGroup, UpdateState};
    ghost use Rattle.flow_batch.specs.declared.TheConstants.{AMOUNT_LIMIT};

    ghost Value = { UpdateState };

    ghost view = { λ u. record { keylen = u.keylen; rep = u.rep; around = if u.in_group then InGroup u.key.items u.balance else Outside } };

    ghost invariant = { λ u. (u.keylen ≤ 255) × IfSome u.balance (λ n. (n ≤ AMOUNT_LIMIT) × (length u.key.items ≡ u.keylen)) };
}

impl Update {
    ghost use Rattle.flow_batch.specs.Update.{refuses, comes};

    /// The component before its first packet, for keys of so many bytes; `rep` says whether its second output is connected. Takes no
    /// memory.
    pub fn new(alloc: Global, keylen: u32, rep: bool) -> Update
        requires least { 1 ≤ keylen }
        requires most { keylen ≤ 255 }
        ensures { result ≡ record { keylen = keylen; rep = rep; around = Outside } }
    {
        Update {
            alloc,
            keylen,
            rep,
            in_group: false,
            key: Vec::new(alloc),
            balance: None,
        }
    }

    // Passes a packet on to the second output, or drops it where that isn't connected.
    fn refuse(&mut self, hands: &mut Hands, packet: PacketId) -> Result<Wish, Stop>
        requires alone { HoldsOnly (held_of hands.old) packet }
        ensures { Resumes (λ state held _ outcome. outcome ≡ refuses state.rep state held packet) self.old hands.old Answer.Sent result self.new hands.new }
    {
        if self.rep {
            return Ok(Wish::Send(REP, packet));
        }
        hands.drop_packet(packet);
        Ok(Wish::Receive(IN))
    }

    // A record came.
    fn take(&mut self, hands: &mut Hands, packet: PacketId) -> Result<Wish, Stop>
        requires alone { HoldsOnly (held_of hands.old) packet }
        ensures { Resumes (λ state held _ outcome. outcome ≡ comes state held packet state.around Kind.Normal) self.old hands.old Answer.Sent result self.new hands.new }
    {
        if !self.in_group {
            return self.refuse(hands, packet);
        }
        match posted(
            self.keylen as usize,
            &self.key,
            self.balance,
            hands.text(packet),
        ) {
            Posting::Applied(balance) => {
                self.balance = balance;
                hands.drop_packet(packet);
                Ok(Wish::Receive(IN))
            }
            Posting::Refused => self.refuse(hands, packet),
        }
    }

    // A group begins.
    fn begin(&mut self, hands: &mut Hands, packet: PacketId) -> Result<Wish, Stop>
        requires alone { HoldsOnly (held_of hands.old) packet }
        ensures { Resumes (λ state held _ outcome. outcome ≡ comes state held packet state.around Kind.Open) self.old hands.old Answer.Sent result self.new hands.new }
    {
        if self.in_group {
            return Err(Stop::Fail(Fail::BracketIn(IN)));
        }
        let Ok(key) = hands.text(packet).to_vec(self.alloc) else {
            return Err(Stop::NoMemory);
        };
        hands.drop_packet(packet);
        self.in_group = true;
        self.balance = None;
        self.key = key;
        Ok(Wish::Receive(IN))
    }

    // A group ends.
    fn finish(&mut self, hands: &mut Hands, packet: PacketId) -> Result<Wish, Stop>
        requires alone { HoldsOnly (held_of hands.old) packet }
        requires room { hands.old.made < 4294967295 }
        ensures { Resumes (λ state held _ outcome. outcome ≡ comes state held packet state.around Kind.Close) self.old hands.old Answer.Sent result self.new hands.new }
    {
        if !self.in_group {
            return Err(Stop::Fail(Fail::BracketIn(IN)));
        }
        let Some(amount) = self.balance else {
            self.in_group = false;
            hands.drop_packet(packet);
            return Ok(Wish::Receive(IN));
        };
        let Ok(master) = line(self.alloc, &self.key, amount) else {
            return Err(Stop::NoMemory);
        };
        self.in_group = false;
        hands.drop_packet(packet);
        let made = hands.make_normal(master);
        Ok(Wish::Send(OUT, made))
    }
}

impl Component for Update {
    ghost use Rattle.flow_batch.specs.Update.{update_rules};
    ghost use Rattle.flow_batch.specs.UpdateLaws.{update_lawful};

    ghost rules = { update_rules };

    ghost lawful = { update_lawful };

    fn shape(&self) -> Shape {
        Shape {
            inputs: 1,
            outputs: 2,
        }
    }

    #[inline(never)]
    fn resume(&mut self, hands: &mut Hands, answer: Answer) -> Result<Wish, Stop> {
        match answer {
            Answer::Start => Ok(Wish::Receive(IN)),
            Answer::Got(packet) => match hands.kind(packet) {
                Kind::Normal => self.take(hands, packet),
                Kind::Open => self.begin(hands, packet),
                Kind::Close => self.finish(hands, packet),
            },
            Answer::End => Ok(Wish::Deactivate),
            Answer::Sent => Ok(Wish::Receive(IN)),
            Answer::Level(_) => unreachable!(),
        }
    }

    fn end(&mut self) {}
}
