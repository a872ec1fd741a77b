ghost use Rattle.flash.specs.Laws.{Listed, PutListed, EraseListed, FailListed};

// Every change of a chip is the same change of its list of blocks.
pub fn changes_are_listed()
    ensures each { Listed }
    ensures put { PutListed }
    ensures erase { EraseListed }
    ensures fail { FailListed }
{}
