//! Scripts that run concurrently, each on its own thread.

mod gates;
mod races;
