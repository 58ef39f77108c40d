use brc_c_store::{Calling, Choice, Event, Store, Value};

/// Returns whether a path may also go another way after an event, so that nothing in the text computes the choice.
pub(crate) fn is_open(event: Event, choice: Choice, store: &Store) -> bool {
    match event {
        Event::Call { calling, .. } => calling != Calling::Succeeds,
        Event::Null(local) => is_open_value(store.value(local)),
        Event::Sign { of, test } => match store.value(of) {
            Value::Number(signs) => !signs.that(test, choice != Choice::Yes).is_empty(),
            _ => true,
        },
        Event::Choice(Some(fact)) => store.fact(fact).is_none(),
        Event::Choice(None) => true,
        _ => false,
    }
}

fn is_open_value(value: Value) -> bool {
    matches!(value, Value::Maybe(_) | Value::Number(_))
}
