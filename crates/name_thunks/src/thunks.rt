ghost use Rattle.std.specs.Prelude.{◌≡◌, MatchOption, OnOk, OnErr};
ghost use Rattle.cell_store.specs.Stores.{text_allowed, newest};
ghost use Rattle.name_thunks.specs.Thunks.{thunk_frame, thunk_entered, thunk_left};

use cell_store::{Closed, Entry, Frame, Purpose, Refusal, Store};

/// Enters a copied actual, which returns to an instruction: it goes on in the frames that its link names. L4 exactly at
/// depth 2,000; otherwise it is refused exactly where there is no room, or its link names neither the program nor a text
/// under way.
pub fn enter_thunk(
    store: &mut Store,
    closed: &Closed,
    back: u32,
    purpose: Purpose,
) -> Result<(), Refusal>
    ensures answer { result ≡ text_allowed (thunk_frame closed.now back purpose store.old) store.old }
    ensures entered { OnOk result (store.new ≡ thunk_entered closed.now back purpose store.old) }
    ensures unchanged { OnErr result (store.new ≡ store.old) }
{
    let frame = Frame {
        back,
        text: store.current(),
        link: closed.link,
        start: store.entry_count(),
        base: store.live(),
        purpose,
        kind: closed.kind,
        head: closed.entry,
        counts: true,
    };
    store.enter(frame, Entry::Actual { head: closed.entry })
}

/// Leaves a copied actual, the newest text under way: all of it is given back, and the text that used it goes on. Where no
/// text is under way it does nothing.
pub fn leave_thunk(store: &mut Store)
    ensures { MatchOption (newest store.old) (store.new ≡ store.old) (λ frame. store.new ≡ thunk_left frame store.old) }
{
    let Some(frame) = store.newest() else {
        return;
    };
    let text = frame.text;
    store.go_on(text);
    store.leave();
}
