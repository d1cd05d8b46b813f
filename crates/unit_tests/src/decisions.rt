use crate::rows::{see, unsigned, words};
use batch_core::{Claim, CoreState, Event};
use std::alloc::{AllocError, Global};
use std::process::Abort;
use std::test::Fail;

/// Lets an event come, where it is allowed and there is memory for it.
fn comes(state: &mut CoreState, event: Event) -> bool {
    if !state.allowed(&event) {
        return false;
    }
    match event {
        Event::Arrive(claim) => return state.arrive(claim).is_ok(),
        Event::Accept(_) | Event::Refuse(_) | Event::End(..) | Event::Print(_) => state.step(event),
    }
    true
}

fn claim(account: u32, reserve: u64, cards: u64) -> Claim {
    Claim {
        account: Some(account),
        reserve,
        cards,
    }
}

/// What comes to an account with 150 that two jobs share, and whether it may come; or the least and the greatest balance of the
/// account. A job arrives with its account, its reserve and its cards, and ends with what it is charged.
const WAITING: &str = "\
arrive 1 100 5|not yet
arrive 0 100 5|comes
arrive 0 120 4|comes
accept 2|not yet
refuse 1|not yet
accept 1|comes
balance 50 145|
accept 2|not yet
refuse 2|not yet
print 1|not yet
end 1 4|not yet
end 1 10|comes
balance 140 140|
refuse 2|not yet
accept 2|comes
print 2|not yet
print 1|comes
end 2 7|comes
print 2|comes
balance 133 133|
";

/// The event of a row.
fn event_of(rt: &impl Abort, event: &str) -> Event {
    let [kind, first, second, third, ..] = words(event);
    let number = unsigned(rt, first);
    match kind {
        "accept" => Event::Accept(number),
        "refuse" => Event::Refuse(number),
        "print" => Event::Print(number),
        "end" => Event::End(number, u64::from(unsigned(rt, second))),
        _ => Event::Arrive(claim(
            number,
            u64::from(unsigned(rt, second)),
            u64::from(unsigned(rt, third)),
        )),
    }
}

#[test]
fn a_job_waits_until_another_ends(rt: HostRuntime) -> Result<(), Fail> {
    let mut state = CoreState::new(rt.alloc(), &[150])?;
    for row in WAITING.lines() {
        let (event, wanted) = row.split_once('|').unwrap_or((row, ""));
        if let ["balance", low, high, ..] = words(event) {
            see(&rt, row, state.low(0) == u64::from(unsigned(&rt, low)));
            see(&rt, row, state.high(0) == u64::from(unsigned(&rt, high)));
        } else {
            let came = comes(&mut state, event_of(&rt, event));
            see(&rt, row, came == (wanted == "comes"));
        }
    }
    Ok(())
}

/// Three jobs, each with its number, on accounts with these openings.
#[derive(Drop)]
struct Batch {
    openings: [u64; 2],
    claims: [(u32, Claim); 3],
}

/// The state behind these events.
fn behind(alloc: Global, batch: &Batch, events: &[Event]) -> Result<CoreState, AllocError> {
    let mut state = CoreState::new(alloc, &batch.openings)?;
    for event in events {
        let _came = comes(&mut state, *event);
    }
    Ok(state)
}

/// The events but arrivals that a job can have: it ends at its cards or at its reserve.
fn events_of(number: u32, claim: Claim) -> [Event; 4] {
    [
        Event::Accept(number),
        Event::Refuse(number),
        Event::End(number, claim.cards),
        Event::End(number, claim.reserve),
    ]
}

/// Whether the events decide each job as its place does, by what the jobs before it were charged.
fn by_place(batch: &Batch, events: &[Event]) -> bool {
    let mut balances = batch.openings;
    for (number, claim) in batch.claims {
        let mut accepted = false;
        let mut charge = 0;
        for event in events {
            match *event {
                Event::Accept(other) if other == number => accepted = true,
                Event::End(other, settled) if other == number => charge = settled,
                _ => {}
            }
        }
        let account = claim.account.unwrap_or(0) as usize;
        let Some(balance) = balances.get_mut(account) else {
            return false;
        };
        if accepted != (claim.reserve <= *balance) {
            return false;
        }
        *balance = balance.saturating_sub(charge);
    }
    true
}

/// Goes every way on from these events, at most so many events, and tells how many lists of events were made whole; none
/// where one of them decides a job otherwise than its place.
fn ways(
    alloc: Global,
    batch: &Batch,
    arrived: usize,
    events: &mut Vec<Event>,
    most: u32,
) -> Result<Option<u32>, AllocError> {
    let Some(fewer) = most.checked_sub(1) else {
        return Ok(None);
    };
    let state = behind(alloc, batch, events.as_slice())?;
    let mut count: u32 = 0;
    if let Some((_, claim)) = batch.claims.get(arrived) {
        events.push(Event::Arrive(*claim))?;
        match ways(alloc, batch, arrived + 1, events, fewer)? {
            None => return Ok(None),
            Some(more) => count = count.saturating_add(more),
        }
        events.pop();
    }
    for (number, claim) in batch.claims {
        for event in events_of(number, claim) {
            if state.allowed(&event) {
                events.push(event)?;
                match ways(alloc, batch, arrived, events, fewer)? {
                    None => return Ok(None),
                    Some(more) => count = count.saturating_add(more),
                }
                events.pop();
            }
        }
    }
    if count > 0 {
        return Ok(Some(count));
    }
    Ok(by_place(batch, events.as_slice()).then_some(1))
}

#[test]
fn every_way_decides_by_place(rt: HostRuntime) -> Result<(), Fail> {
    let mut events = Vec::new(rt.alloc());
    let mut total: u32 = 0;
    for opening in 0..=9 {
        for (second, third) in [(0, 0), (0, 1), (1, 0)] {
            let claims = [
                (1, claim(0, 4, 1)),
                (2, claim(second, 3, 2)),
                (3, claim(third, 5, 0)),
            ];
            let batch = Batch {
                openings: [opening, opening],
                claims,
            };
            events.clear();
            let count = ways(rt.alloc(), &batch, 0, &mut events, 10)?;
            see(&rt, "each way decides by place", count.is_some());
            total = total.saturating_add(count.unwrap_or(0));
        }
    }
    // So many there are by another program.
    see(&rt, "so many ways there are", total == 6301);
    Ok(())
}

#[test]
fn many_jobs(rt: HostRuntime) -> Result<(), Fail> {
    let mut state = CoreState::new(rt.alloc(), &[1000; 500])?;
    for number in 1..2001 {
        let event = Event::Arrive(claim(number % 500, 300, 10));
        see(&rt, "a job arrives", comes(&mut state, event));
    }
    for number in 1..2001 {
        let accepted = comes(&mut state, Event::Accept(number));
        see(
            &rt,
            "a job is decided",
            accepted || comes(&mut state, Event::Refuse(number)),
        );
        see(&rt, "a job ends", comes(&mut state, Event::End(number, 40)));
        see(
            &rt,
            "a job is printed",
            comes(&mut state, Event::Print(number)),
        );
    }
    see(
        &rt,
        "two jobs are charged",
        state.low(499) == 840 && state.high(499) == 840,
    );
    Ok(())
}
