mod absorb;
mod answers;
mod extremes;
mod globe;
mod shared_edges;
mod walk;
