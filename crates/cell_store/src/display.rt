ghost use Rattle.std.specs.Prelude.{◌≡◌, ◌≤◌, ◌<◌, ◌+◌, ◌-◌, ◌++◌, ◌∷◌, ◌↔◌, ◌⊎◌, ℕ, List, [], Option, Some, None, IfOk, IfSome, OnOk, IsTrue, length, take, vec_capacity};
ghost use Rattle.cell_store.specs.declared.entries.Frame.{Frame};
ghost use Rattle.cell_store.specs.Links.{outwards};
ghost use Rattle.cell_store.specs.Displays.{IsBelow, HasText, level_in, levels_of, IsDisplay, IsSomeDisplay, Standing, Displayed};

use crate::entries::Frame;
use std::alloc::{AllocError, Global};

/// What stands for the program where a text goes by its frame: no frame has this number.
pub const PROGRAM: u32 = u32::MAX;

/// A text, as it stands in the display.
#[derive(Clone, Copy)]
pub(crate) struct Shown {
    /// Its frame, or what stands for the program.
    pub text: u32,
    /// How many entries lie below its own.
    pub start: u32,
}

impl Shown {
    /// The program.
    const OUTERMOST: Shown = Shown {
        text: PROGRAM,
        start: 0,
    };
}

/// What is kept of a text that was entered.
#[derive(Clone, Copy)]
pub(crate) struct Entering {
    /// Its level.
    pub level: u32,
    /// The level of the text that was the innermost before.
    pub before: u32,
    /// What stood at its level before.
    pub replaced: Shown,
}

impl Entering {
    /// What fills the room before texts are entered.
    const BLANK: Entering = Entering {
        level: 0,
        before: 0,
        replaced: Shown::OUTERMOST,
    };
}

/// The texts that a text stands inside, and itself, each found by its level in one look. The level of the program is 0, and
/// that of a text one more than that of the text round it. A text that is entered replaces one, which is kept, so that
/// where it goes on no more the display from before is there at one go.
#[derive(Drop)]
pub(crate) struct Display {
    /// The texts by their levels, and behind the innermost what stood there before.
    pub shown: Vec<Shown>,
    /// The level of the innermost.
    pub level: u32,
    /// What is kept of the text of each frame, and behind the newest of others.
    pub entered: Vec<Entering>,
    /// The first so many texts may have replaced more than what is kept: where one of them goes on no more, the texts round
    /// the one that goes on are looked for.
    pub torn: u32,
}

impl Display {
    /// That of the program, where there are no frames and there is no room for them.
    pub fn new(alloc: Global) -> Result<Display, AllocError>
        ensures shown { IfOk result (λ d. Displayed [] None d.entered.items d.shown.items d.level d.torn) }
        ensures places { IfOk result (λ d. 0 < length d.shown.items) }
    {
        let mut shown = Vec::new(alloc);
        shown.push(Shown::OUTERMOST)?;
        Ok(Display {
            shown,
            level: 0,
            entered: Vec::new(alloc),
            torn: 0,
        })
    }

    /// Makes room for as many frames, where there isn't more.
    pub fn make_room(&mut self, frames: &[Frame], room: u32) -> Result<(), AllocError>
        requires few { length frames.now ≤ 4294967295 }
        ensures shown { (current : Option ℕ) → Displayed frames.now current self.old.entered.items self.old.shown.items self.old.level self.old.torn
            → Displayed frames.now current self.new.entered.items self.new.shown.items self.new.level self.new.torn }
        ensures entered { length self.old.entered.items ≤ length self.new.entered.items }
        ensures more { length self.old.shown.items ≤ length self.new.shown.items }
        ensures made { OnOk result ((room ≤ length self.new.entered.items) × (room < length self.new.shown.items)) }
    {
        let room = room as usize;
        let places = room + 1;
        self.entered
            .reserve_exact(room.saturating_sub(self.entered.len()))?;
        self.shown
            .reserve_exact(places.saturating_sub(self.shown.len()))?;
        fill_up(&mut self.entered, room, Entering::BLANK);
        fill_up(&mut self.shown, places, Shown::OUTERMOST);
        self.torn = frames.len() as u32;
        Ok(())
    }

    /// All frames are given back, and the program runs.
    pub fn clear(&mut self, frames: &[Frame])
        requires { Standing frames.now self.old.entered.items self.old.shown.items self.old.level self.old.torn }
        ensures shown { Displayed [] None self.new.entered.items self.new.shown.items self.new.level self.new.torn }
        ensures entered { self.new.entered ≡ self.old.entered }
        ensures places { self.new.shown ≡ self.old.shown }
    {
        self.level = 0;
    }

    /// A text runs whose frame is to be the newest. Where it is told, the text round it is so many links out from the one that
    /// runs.
    #[inline(always)]
    pub fn enter_by(
        &mut self,
        frames: &[Frame],
        text: Option<u32>,
        links: Option<u32>,
        frame: &Frame,
    )
        requires stands { Displayed frames.now text self.old.entered.items self.old.shown.items self.old.level self.old.torn }
        requires way { IfSome links (λ n. outwards frames.now text n ≡ Some frame.now.link) }
        requires link { IsBelow frame.now.link (length frames.now) }
        requires few { length frames.now < 4294967295 }
        requires entered { length frames.now < length self.old.entered.items }
        requires places { length frames.now + 1 < length self.old.shown.items }
        ensures shown { Displayed (frames.now ++ frame.now ∷ []) (Some (length frames.now)) self.new.entered.items self.new.shown.items self.new.level self.new.torn }
        ensures entered { length self.new.entered.items ≡ length self.old.entered.items }
        ensures places { length self.new.shown.items ≡ length self.old.shown.items }
    {
        match links {
            Some(links) => self.enter_within(frames, text, links, frame),
            None => self.enter(frames, frame),
        }
    }

    /// A text runs whose frame is to be the newest, wherever the text round it stands.
    #[inline(never)]
    fn enter(&mut self, frames: &[Frame], frame: &Frame)
        requires stands { Standing frames.now self.old.entered.items self.old.shown.items self.old.level self.old.torn }
        requires link { IsBelow frame.now.link (length frames.now) }
        requires few { length frames.now < 4294967295 }
        requires entered { length frames.now < length self.old.entered.items }
        requires places { length frames.now + 1 < length self.old.shown.items }
        ensures shown { Displayed (frames.now ++ frame.now ∷ []) (Some (length frames.now)) self.new.entered.items self.new.shown.items self.new.level self.new.torn }
        ensures entered { length self.new.entered.items ≡ length self.old.entered.items }
        ensures places { length self.new.shown.items ≡ length self.old.shown.items }
    {
        let number = frames.len() as u32;
        let before = self.level;
        let level = self.reach(frames, frame.link) + 1;
        self.entered[number as usize] = Entering {
            level,
            before,
            replaced: self.shown[level as usize],
        };
        self.shown[level as usize] = Shown {
            text: number,
            start: frame.start,
        };
        self.level = level;
    }

    /// The same, where the text round it is so many links out from the one that runs.
    #[inline(always)]
    fn enter_within(&mut self, frames: &[Frame], _text: Option<u32>, links: u32, frame: &Frame)
        requires stands { Displayed frames.now _text self.old.entered.items self.old.shown.items self.old.level self.old.torn }
        requires way { outwards frames.now _text links ≡ Some frame.now.link }
        requires link { IsBelow frame.now.link (length frames.now) }
        requires few { length frames.now < 4294967295 }
        requires entered { length frames.now < length self.old.entered.items }
        requires places { length frames.now + 1 < length self.old.shown.items }
        ensures shown { Displayed (frames.now ++ frame.now ∷ []) (Some (length frames.now)) self.new.entered.items self.new.shown.items self.new.level self.new.torn }
        ensures entered { length self.new.entered.items ≡ length self.old.entered.items }
        ensures places { length self.new.shown.items ≡ length self.old.shown.items }
    {
        let number = frames.len() as u32;
        let before = self.level;
        let level = before - links + 1;
        self.entered[number as usize] = Entering {
            level,
            before,
            replaced: self.shown[level as usize],
        };
        self.shown[level as usize] = Shown {
            text: number,
            start: frame.start,
        };
        self.level = level;
    }

    /// The newest frame is given back. Where its text is still the innermost, the program is from now on.
    #[inline(always)]
    pub fn leave(&mut self, frames: &[Frame])
        requires stands { Standing frames.now self.old.entered.items self.old.shown.items self.old.level self.old.torn }
        requires one { 0 < length frames.now }
        requires few { length frames.now ≤ 4294967295 }
        ensures shown { (current : Option ℕ) → Displayed frames.now current self.old.entered.items self.old.shown.items self.old.level self.old.torn
            → Displayed (take (length frames.now - 1) frames.now) current self.new.entered.items self.new.shown.items self.new.level self.new.torn }
        ensures entered { self.new.entered ≡ self.old.entered }
        ensures places { self.new.shown ≡ self.old.shown }
    {
        if self.shown[self.level as usize].text as usize == frames.len() - 1 {
            self.level = 0;
        }
    }

    /// A text goes on, where it is there, in place of the innermost.
    #[inline(always)]
    pub fn go_on(&mut self, frames: &[Frame], text: Option<u32>)
        requires stands { Standing frames.now self.old.entered.items self.old.shown.items self.old.level self.old.torn }
        requires few { length frames.now ≤ 4294967295 }
        requires places { length frames.now < length self.old.shown.items }
        ensures shown { Displayed frames.now text self.new.entered.items self.new.shown.items self.new.level self.new.torn }
        ensures entered { self.new.entered ≡ self.old.entered }
        ensures places { length self.new.shown.items ≡ length self.old.shown.items }
    {
        let innermost = self.shown[self.level as usize].text;
        if self.torn <= innermost && innermost != PROGRAM {
            self.undo(frames, innermost);
        }
        self.turn(frames, text);
    }

    /// The newest text, which is the one that runs, is given back, and a text goes on.
    #[inline(always)]
    pub fn give_back(&mut self, frames: &[Frame], newest: u32, text: Option<u32>)
        requires runs { Displayed frames.now (Some newest) self.old.entered.items self.old.shown.items self.old.level self.old.torn }
        requires newest { newest + 1 ≡ length frames.now }
        requires few { length frames.now ≤ 4294967295 }
        requires places { length frames.now < length self.old.shown.items }
        ensures shown { Displayed (take newest frames.now) text self.new.entered.items self.new.shown.items self.new.level self.new.torn }
        ensures entered { self.new.entered ≡ self.old.entered }
        ensures places { length self.new.shown.items ≡ length self.old.shown.items }
    {
        if newest < self.torn {
            self.give_back_torn(frames, text);
            return;
        }
        self.undo(frames, newest);
        self.turn(&frames[..newest as usize], text);
    }

    /// The newest text is given back, and a text goes on, whatever the newest replaced.
    #[inline(never)]
    fn give_back_torn(&mut self, frames: &[Frame], text: Option<u32>)
        requires stands { Standing frames.now self.old.entered.items self.old.shown.items self.old.level self.old.torn }
        requires one { 0 < length frames.now }
        requires few { length frames.now ≤ 4294967295 }
        requires places { length frames.now < length self.old.shown.items }
        ensures shown { Displayed (take (length frames.now - 1) frames.now) text self.new.entered.items self.new.shown.items self.new.level self.new.torn }
        ensures entered { self.new.entered ≡ self.old.entered }
        ensures places { length self.new.shown.items ≡ length self.old.shown.items }
    {
        self.go_on(frames, text);
        self.leave(frames);
    }

    /// All frames but the first so many are given back. Where the innermost text goes with them, the program is from now on.
    #[inline(always)]
    pub fn cut(&mut self, frames: &[Frame], left: u32)
        requires { Standing frames.now self.old.entered.items self.old.shown.items self.old.level self.old.torn }
        ensures stands { Standing (take left frames.now) self.new.entered.items self.new.shown.items self.new.level self.new.torn }
        ensures entered { self.new.entered ≡ self.old.entered }
        ensures places { self.new.shown ≡ self.old.shown }
    {
        if self.shown[self.level as usize].text >= left {
            self.level = 0;
        }
    }

    /// It becomes the display of a text, where that is there.
    #[inline(always)]
    pub fn turn(&mut self, frames: &[Frame], text: Option<u32>)
        requires stands { Standing frames.now self.old.entered.items self.old.shown.items self.old.level self.old.torn }
        requires few { length frames.now ≤ 4294967295 }
        requires places { length frames.now < length self.old.shown.items }
        ensures shown { Displayed frames.now text self.new.entered.items self.new.shown.items self.new.level self.new.torn }
        ensures entered { self.new.entered ≡ self.old.entered }
        ensures places { length self.new.shown.items ≡ length self.old.shown.items }
    {
        if !shows(&self.shown, self.level, self.level, text) {
            self.turn_anew(frames, text);
        }
    }

    /// What the innermost text replaced stands there again.
    #[inline(always)]
    fn undo(&mut self, frames: &[Frame], innermost: u32)
        requires stands { Standing frames.now self.old.entered.items self.old.shown.items self.old.level self.old.torn }
        requires few { length frames.now ≤ 4294967295 }
        requires innermost { HasText self.old.shown.items self.old.level self.old.level (Some innermost) }
        requires frame { innermost < 4294967295 }
        requires whole { self.old.torn ≤ innermost }
        ensures stands { Standing frames.now self.new.entered.items self.new.shown.items self.new.level self.new.torn }
        ensures below { Standing (take innermost frames.now) self.new.entered.items self.new.shown.items self.new.level self.new.torn }
        ensures entered { self.new.entered ≡ self.old.entered }
        ensures places { length self.new.shown.items ≡ length self.old.shown.items }
    {
        let entering = self.entered[innermost as usize];
        self.shown[self.level as usize] = entering.replaced;
        self.level = entering.before;
    }

    /// It becomes the display of a text that isn't the innermost, where that is there.
    #[inline(never)]
    fn turn_anew(&mut self, frames: &[Frame], text: Option<u32>)
        requires stands { Standing frames.now self.old.entered.items self.old.shown.items self.old.level self.old.torn }
        requires few { length frames.now ≤ 4294967295 }
        requires places { length frames.now < length self.old.shown.items }
        ensures shown { Displayed frames.now text self.new.entered.items self.new.shown.items self.new.level self.new.torn }
        ensures entered { self.new.entered ≡ self.old.entered }
        ensures places { length self.new.shown.items ≡ length self.old.shown.items }
    {
        if is_there(text, frames) {
            self.show(frames, text);
            self.level = level_of(&self.entered, text);
            self.torn = behind(text);
        }
    }

    /// Makes a text that is there stand at its level, and the texts round it at theirs, before another is entered. Its level.
    #[inline(always)]
    fn reach(&mut self, frames: &[Frame], text: Option<u32>) -> u32
        requires shown { IsSomeDisplay frames.now (levels_of self.old.entered.items) self.old.shown.items self.old.level }
        requires there { IsBelow text (length frames.now) }
        requires few { length frames.now < 4294967295 }
        requires places { length frames.now < length self.old.shown.items }
        ensures level { result ≡ level_in (levels_of self.old.entered.items) text }
        ensures shown { IsDisplay frames.now text (levels_of self.new.entered.items) self.new.shown.items result }
        ensures torn { ((self.new.shown ≡ self.old.shown) × (self.new.torn ≡ self.old.torn)) ⊎ (length frames.now < self.new.torn) }
        ensures innermost { self.new.level ≡ self.old.level }
        ensures entered { self.new.entered ≡ self.old.entered }
        ensures places { length self.new.shown.items ≡ length self.old.shown.items }
    {
        if text.is_none() {
            return 0;
        }
        let level = level_of(&self.entered, text);
        if !shows(&self.shown, self.level, level, text) {
            self.show(frames, text);
            self.torn = frames.len() as u32 + 1;
        }
        level
    }

    /// The same, where one of them stands elsewhere. (Out of line, and with few parameters: the machine's loop would else want for
    /// registers.)
    #[inline(never)]
    fn show(&mut self, frames: &[Frame], text: Option<u32>)
        requires shown { IsSomeDisplay frames.now (levels_of self.old.entered.items) self.old.shown.items self.old.level }
        requires there { IsBelow text (length frames.now) }
        requires few { length frames.now ≤ 4294967295 }
        requires places { length frames.now < length self.old.shown.items }
        ensures shown { IsDisplay frames.now text (levels_of self.new.entered.items) self.new.shown.items (level_in (levels_of self.new.entered.items) text) }
        ensures torn { self.new.torn ≡ self.old.torn }
        ensures innermost { self.new.level ≡ self.old.level }
        ensures entered { self.new.entered ≡ self.old.entered }
        ensures places { length self.new.shown.items ≡ length self.old.shown.items }
    {
        show_from(frames, &self.entered, &mut self.shown, self.level, text);
    }
}

/// The level of a text that is there.
#[inline(always)]
fn level_of(entered: &[Entering], text: Option<u32>) -> u32
    requires { IsBelow text (length entered.now) }
    ensures { result ≡ level_in (levels_of entered.now) text }
{
    match text {
        None => 0,
        Some(number) => entered[number as usize].level,
    }
}

/// A number behind that of a text.
#[inline(always)]
fn behind(text: Option<u32>) -> u32
    requires { IsBelow text 4294967295 }
    ensures { IsBelow text result }
{
    match text {
        None => 0,
        Some(number) => number + 1,
    }
}

/// Whether a text stands at its level, where the innermost has this level.
#[inline(always)]
fn shows(shown: &[Shown], innermost: u32, level: u32, text: Option<u32>) -> bool
    requires { innermost < length shown.now }
    ensures { IsTrue result ↔ HasText shown.now innermost level text }
{
    let number = match text {
        None => PROGRAM,
        Some(number) => number,
    };
    level <= innermost && shown[level as usize].text == number
}

/// Whether a text is the program or has a frame.
#[inline(always)]
fn is_there(text: Option<u32>, frames: &[Frame]) -> bool
    ensures { IsTrue result ↔ IsBelow text (length frames.now) }
{
    match text {
        None => true,
        Some(number) => (number as usize) < frames.len(),
    }
}

/// Puts a text that is there at its level, and the texts round it at theirs, as far as they don't stand there.
fn show_from(
    frames: &[Frame],
    entered: &[Entering],
    shown: &mut [Shown],
    innermost: u32,
    text: Option<u32>,
)
    requires shown { IsSomeDisplay frames.now (levels_of entered.now) shown.old innermost }
    requires there { IsBelow text (length frames.now) }
    requires few { length frames.now ≤ 4294967295 }
    requires places { length frames.now < length shown.old }
    ensures shown { IsDisplay frames.now text (levels_of entered.now) shown.new (level_in (levels_of entered.now) text) }
    ensures places { length shown.new ≡ length shown.old }
{
    let mut at = level_of(entered, text);
    let mut here = text;
    while !shows(shown, innermost, at, here) {
        let Some(number) = here else { unreachable!() };
        let frame = &frames[number as usize];
        shown[at as usize] = Shown {
            text: number,
            start: frame.start,
        };
        here = frame.link;
        at -= 1;
    }
}

/// Fills up to so many items, for which there is room.
fn fill_up<T: Copy>(items: &mut Vec<T>, count: usize, blank: T)
    requires { count ≤ vec_capacity items.old }
    ensures kept { take (length items.old.items) items.new.items ≡ items.old.items }
    ensures long { (count ≤ length items.new.items) × (length items.old.items ≤ length items.new.items) }
{
    for _ in items.len()..count {
        items.push_reserved(blank);
    }
}
