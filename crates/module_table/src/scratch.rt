// Memory for judging a list.
use crate::asked::Marks;
use crate::judge::Draft;

#[derive(Drop)]
pub struct Scratch {
    // the rows of the table, with those of the list
    pub(crate) draft: Draft,
    // which rows of the table were touched
    pub(crate) marks: Marks,
}
