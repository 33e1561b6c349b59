// The answer of an operation: a refusal, or what it did, which is its value and its count of events.
#![tactic(auto)]

ghost use Rattle.std.specs.Prelude.{◌≡◌, [], ◌∷◌};
ghost use Rattle.amount.specs.Biased.{bias, biased};
ghost use Rattle.events.specs.Event.{event_buffer, written_fields};
ghost use Rattle.events.specs.Kinds.{fields_of};
ghost use Rattle.outcome.specs.Outcome.{Announced};

use amount::Amount;
use events::{Buffer, Event, Fields};
use refusal::Refusal;

#[derive(Clone, Copy, Debug, PartialEq, Eq)]
pub struct Done {
    pub value: Amount,
    pub events: u8,
}

pub type Answer = Result<Done, Refusal>;

impl Done {
    // Done with no value.
    #[tactic(auto, using(amount::specs::Order::biased_zero))]
    pub fn new(events: u8) -> Done
        ensures { (biased result.value ≡ bias) × (result.events ≡ events) }
    {
        Done {
            value: Amount::ZERO,
            events,
        }
    }

    // What a view that is done gives.
    pub fn viewed(value: Amount) -> Done
        ensures { (biased result.value ≡ biased value) × (result.events ≡ 0) }
    {
        Done { value, events: 0 }
    }
}

// Done with no value and no event, which the buffer then says.
#[tactic(auto, using(amount::specs::Order::biased_zero))]
pub fn announce_nothing(events: &mut Buffer) -> Done
    ensures { (biased result.value ≡ bias) × (result.events ≡ 0) × (events.new ≡ event_buffer []) }
{
    events::clear_events(events);
    Done::new(0)
}

// Done with no value and one event, which the buffer then holds alone.
#[tactic(auto, using(amount::specs::Order::biased_zero))]
pub fn announce(events: &mut Buffer, event: Event) -> Done
    ensures { Announced (fields_of event) result events.new }
{
    announce_value(events, event, Amount::ZERO)
}

// Done with a value and one event.
pub fn announce_value(events: &mut Buffer, event: Event, value: Amount) -> Done
    ensures { (biased result.value ≡ biased value) × (result.events ≡ 1) × (events.new ≡ event_buffer (fields_of event ∷ [])) }
{
    announce_fields(events, Fields::from(event), value)
}

// The same of fields of any kind.
pub fn announce_fields(events: &mut Buffer, fields: Fields, value: Amount) -> Done
    ensures { (biased result.value ≡ biased value) × (result.events ≡ 1) × (events.new ≡ event_buffer (written_fields fields ∷ [])) }
{
    events::write_one(events, fields);
    Done { value, events: 1 }
}
