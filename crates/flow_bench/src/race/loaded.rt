//! A component with work to do.

use flow_catalogue::Std;
use flow_component::{Answer, Component, Shape, Stop, Wish};
use flow_packet::Hands;

/// A standard component that works a while on each packet that comes.
#[derive(Drop)]
pub struct Loaded {
    pub component: Std,
    /// The rounds of work on a packet.
    pub rounds: u32,
    /// What the work has come to.
    pub sum: u64,
}

/// So many rounds of work, each of which needs what the last one came to.
fn toil(rounds: u32, from: u64) -> u64 {
    let mut sum = from;
    for round in 0..rounds {
        sum = (sum ^ (sum >> 29)).wrapping_mul(6_364_136_223_846_793_005) ^ u64::from(round);
    }
    sum
}

impl Component for Loaded {
    ghost use Rattle.flow_bench.specs.Loaded.{loaded_rules};
    ghost use Rattle.flow_bench.specs.LoadedLaws.{loaded_lawful};

    ghost rules = { loaded_rules };

    ghost lawful = { loaded_lawful };

    fn shape(&self) -> Shape {
        self.component.shape()
    }

    fn resume(&mut self, hands: &mut Hands, answer: Answer) -> Result<Wish, Stop> {
        let sum = match answer {
            Answer::Got(_) => toil(self.rounds, self.sum),
            _ => self.sum,
        };
        let wish = self.component.resume(hands, answer)?;
        self.sum = sum;
        Ok(wish)
    }

    fn end(&mut self) {
        self.component.end();
    }
}
