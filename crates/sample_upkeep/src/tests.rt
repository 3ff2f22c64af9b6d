mod kept;
mod random;
mod shared;
mod updates;
