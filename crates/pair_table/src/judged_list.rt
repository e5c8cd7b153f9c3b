// A list that has been judged: each item is below 2^valid and not the empty slot's number, and there are no more than 2^28.
ghost use Rattle.pair_table.specs.Steps.{Buildable};

#[derive(Clone, Copy)]
pub struct JudgedList<'a> {
    pub list: &'a [u32],
    pub valid: u8,
    ghost buildable: { Buildable valid list.now },
}
