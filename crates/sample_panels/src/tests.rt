mod answers;
mod random;
mod shared;
mod watched_panel;
