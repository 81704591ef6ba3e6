//! A law of worlds. The function is empty: its contract is the law.
ghost use Rattle.world.specs.BuiltWorlds.{LinesKeepBuilt};

/// Whatever comes of a line of a form that is built, done, refused, or left for want of memory: the world stays one of a
/// script of such forms. So the laws over events hold of it, its schema has its shape, and behind Setup there is a direction
/// from each site to its senders and back.
pub fn lines_keep_worlds_of_scripts()
    ensures { LinesKeepBuilt }
{}
