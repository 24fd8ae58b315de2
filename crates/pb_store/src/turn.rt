use pb_reply::Reply;

/// What a turn answers.
#[derive(Debug, Drop)]
pub enum Turn {
    /// The job goes on.
    Working,
    /// The job has ended, or there was none.
    Done(Reply),
}
