//! Turns, saves and staged files among them, charts of days, what is kept beside the charts, and the replies to refusals.

mod days;
mod interleaved;
mod kept;
mod refusals;
mod saves;
mod staged;
mod turns;
