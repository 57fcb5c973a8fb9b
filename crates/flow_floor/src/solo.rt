//! Turns of a held body at no connection.
ghost use Rattle.std.specs.Prelude.{List, ◌≡◌, ℕ, Some, None, slice_get};
ghost use Rattle.flow_component.specs.declared.Wish.TheVariants.{Deactivate, Receive};
ghost use Rattle.flow_model.specs.Events.{Starts, Finishes, Sleeps, is_fresh};
ghost use Rattle.flow_model.specs.States.{Text};
ghost use Rattle.flow_model.specs.declared.Stage.TheVariants.{Idle, Wishing};
ghost use Rattle.flow_machine.specs.Effects.{text_event};
ghost use Rattle.flow_machine.specs.FitNets.{FitNet};
ghost use Rattle.flow_machine.specs.Thoughts.{HasRoom};
ghost use Rattle.flow_floor.specs.Floors.{connection_count, opened_net, process_count, IsDeedOf, IsHeldAt};
ghost use Rattle.flow_floor.specs.Midway.{MakesTurn};
ghost use Rattle.flow_floor.specs.Turning.{Happens};
ghost use Rattle.flow_floor.specs.Workers.{view};

use crate::floor::{Floor, Held, Worker};
use crate::plays::Deed;
use flow_component::{Component, Port};
use flow_machine::Effect;

impl<K: Component> Floor<K> {
    /// Starts.
    pub(crate) fn start_as<D: Deed<K>>(&self, worker: &mut Worker<K>, held: &mut Held<K>) -> u32
        requires deed { IsDeedOf self.now held.old Starts D.turns D.start }
        requires held { IsHeldAt K.rules self.now worker.old held.old }
        requires stage { held.old.body.process.stage ≡ Idle }
        requires room { HasRoom held.old.body }
        requires happens { Happens (FitNet K.rules) (process_count self.now) (connection_count self.now) held.old.process held.old.body None None (view worker.old).seen Starts }
        ensures held { IsHeldAt K.rules self.now worker.new held.new }
        ensures turn { MakesTurn K.rules (opened_net self.now) held.old worker.old held.new worker.new Starts result }
    {
        let stamp = self.stamp::<D>(worker, held, 1);
        held.body.effect(Effect::Start, stamp);
        stamp
    }

    /// Goes to its end.
    pub(crate) fn finish_as<D: Deed<K>>(&self, worker: &mut Worker<K>, held: &mut Held<K>) -> u32
        requires deed { IsDeedOf self.now held.old Finishes D.turns D.start }
        requires held { IsHeldAt K.rules self.now worker.old held.old }
        requires stage { held.old.body.process.stage ≡ Idle }
        requires room { HasRoom held.old.body }
        requires happens { Happens (FitNet K.rules) (process_count self.now) (connection_count self.now) held.old.process held.old.body None None (view worker.old).seen Finishes }
        ensures held { IsHeldAt K.rules self.now worker.new held.new }
        ensures turn { MakesTurn K.rules (opened_net self.now) held.old worker.old held.new worker.new Finishes result }
    {
        let stamp = self.stamp::<D>(worker, held, 1);
        held.body.effect(Effect::ToClosing, stamp);
        stamp
    }

    /// Deactivates, as it wished.
    pub(crate) fn deactivate_as<D: Deed<K>>(
        &self,
        worker: &mut Worker<K>,
        held: &mut Held<K>,
    ) -> u32
        requires deed { IsDeedOf self.now held.old Sleeps D.turns D.start }
        requires held { IsHeldAt K.rules self.now worker.old held.old }
        requires stage { held.old.body.process.stage ≡ Wishing Deactivate }
        requires room { HasRoom held.old.body }
        ensures held { IsHeldAt K.rules self.now worker.new held.new }
        ensures turn { MakesTurn K.rules (opened_net self.now) held.old worker.old held.new worker.new Sleeps result }
    {
        let stamp = self.stamp::<D>(worker, held, 1);
        held.body.effect(Effect::Deactivate, stamp);
        stamp
    }

    /// Receives on a port with an initial text.
    pub(crate) fn text_as<D: Deed<K>>(
        &self,
        worker: &mut Worker<K>,
        held: &mut Held<K>,
        port: Port,
    ) -> u32
        requires deed { IsDeedOf self.now held.old (text_event port.0 (is_fresh held.old.body.process port.0) (slice_get held.old.body.process.inputs port.0)) D.turns D.start }
        requires held { IsHeldAt K.rules self.now worker.old held.old }
        requires stage { held.old.body.process.stage ≡ Wishing (Receive port) }
        requires input { (text : List ℕ) × (slice_get held.old.body.process.inputs port.0 ≡ Some (Text text)) }
        requires room { HasRoom held.old.body }
        ensures held { IsHeldAt K.rules self.now worker.new held.new }
        ensures turn { MakesTurn K.rules (opened_net self.now) held.old worker.old held.new worker.new (text_event port.0 (is_fresh held.old.body.process port.0) (slice_get held.old.body.process.inputs port.0)) result }
    {
        let _ = port;
        let stamp = self.stamp::<D>(worker, held, 1);
        held.body.effect(Effect::Initial, stamp);
        stamp
    }
}
