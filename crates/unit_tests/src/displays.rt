use crate::rows::see;
use cell_store::{Closed, Entry, Frame, PROGRAM, Purpose, Store};
use name_thunks::{enter_thunk, leave_thunk};
use std::process::Abort;
use std::test::Fail;

/// The texts that the one that runs stands inside, and itself, of the levels 0 to 4.
fn shown(store: &Store) -> [Option<u32>; 5] {
    [
        store.display(0),
        store.display(1),
        store.display(2),
        store.display(3),
        store.display(4),
    ]
}

/// Enters a text that stands in another.
fn enter(rt: &impl Abort, store: &mut Store, link: Option<u32>) {
    let frame = Frame {
        back: 0,
        text: store.current(),
        link,
        start: store.entry_count(),
        base: store.live(),
        purpose: Purpose::Value,
        kind: None,
        head: 0,
        counts: true,
    };
    see(
        rt,
        "a text is entered",
        store.enter(frame, Entry::Aside).is_ok(),
    );
}

/// Enters a copied actual that is written in a text.
fn enter_actual(rt: &impl Abort, store: &mut Store, link: Option<u32>) {
    let actual = Closed {
        entry: 0,
        link,
        variable: false,
        kind: None,
    };
    see(
        rt,
        "an actual is entered",
        enter_thunk(store, &actual, 0, Purpose::Value).is_ok(),
    );
}

/// A procedure's text in the program, a text in that, and copied actuals that are written in each of the three.
#[test]
fn copied_actuals_give_the_display_back(rt: HostRuntime) -> Result<(), Fail> {
    let mut store = Store::new(rt.alloc())?;
    store.make_room(100, 100)?;
    let program = Some(PROGRAM);
    enter(&rt, &mut store, None);
    enter(&rt, &mut store, Some(0));
    let before = shown(&store);
    see(
        &rt,
        "three levels",
        before == [program, Some(0), Some(1), None, None],
    );
    let rows = [
        (None, [program, Some(2), None, None, None]),
        (Some(0), [program, Some(0), Some(2), None, None]),
        (Some(1), [program, Some(0), Some(1), Some(2), None]),
    ];
    for (link, wanted) in rows {
        enter_actual(&rt, &mut store, link);
        let within = shown(&store);
        see(&rt, "in an actual", within == wanted);
        for (inner, _) in rows {
            enter_actual(&rt, &mut store, inner);
            leave_thunk(&mut store);
            see(&rt, "behind an actual's actual", shown(&store) == within);
        }
        leave_thunk(&mut store);
        see(&rt, "behind an actual", shown(&store) == before);
    }
    Ok(())
}
