/// What a caller announces: the line that it stands for, and the update. A commit has none.
#[derive(Drop)]
pub struct Change<U> {
    pub line: u32,
    pub update: Option<U>,
}
