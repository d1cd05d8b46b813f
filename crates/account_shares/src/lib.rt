//! A batch cut into shares of its accounts, and into parts one after the other: no section changes but for its number.
#![tactic(auto)]

mod laws;
mod share_laws;

pub use laws::{
    cards_are_plain, flawed_sections, flaws_or_accounts, own_batch, own_bodies, own_input,
    own_input_listing, own_input_statement, own_listing, own_sections, own_statement,
    sections_from_shares,
};
pub use share_laws::{
    balances_in_turn, night_listing, one_account_share, section_in_turn, sections_from_closings,
    sections_from_division, sections_in_turn, sections_part, share_balances, share_bodies,
    share_cards, share_closings, share_input, share_listing, share_night_listing, share_of_night,
    share_sections,
};
