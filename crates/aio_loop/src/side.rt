//! What home has beside the table.
use aio_handlers::Handlers;
use aio_timers::Timers;

/// What a loop has beside its table: all of it is home's alone.
#[derive(Debug, Drop)]
pub struct Side {
    pub handlers: Handlers,
    pub timers: Timers,
}
