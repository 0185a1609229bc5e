// Rows of parts.

/// What one turn of a row of parts gives: a part behind which more may come, the last part, or the row's end.
#[derive(Drop)]
pub enum Turn<T> {
    More(T),
    Last(T),
    End,
}
