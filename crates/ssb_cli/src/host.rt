// The system that the program runs on.

use std::fs::File;
use std::rt::{Clock, Env, Files};
use std::sync::Wait;
use std::thread::Threads;

/// What the program asks of the system: files, words, its input and outputs, memory, a clock, and threads that
/// may wait for each other.
pub(crate) trait Host: Files<File = File>
    + Input
    + Print
    + Eprint
    + Env
    + AllocGlobal
    + Threads
    + Wait
    + Clock
    + Sync {}

impl<
    R: Files<File = File>
        + Input
        + Print
        + Eprint
        + Env
        + AllocGlobal
        + Threads
        + Wait
        + Clock
        + Sync,
> Host for R {}
