// Why taking the top of a victim's deque gives no job (document 02, L2): the miss is bare if the victim holds a job at that moment, and of
// an idle victim if it holds none.
#[derive(Clone, Copy, PartialEq, Eq)]
pub enum Miss {
    IdleVictim,
    Bare,
}
