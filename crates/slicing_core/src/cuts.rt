// Steps 2 to 4 for one interval: how it is cut.
ghost use Rattle.slicing_core.specs.Stages.{side, CutTo};

// The points kept in front, taken and kept behind; the flag afterwards, true for 'start'; and whether
// the gap ends where the next interval begins.
#[derive(Clone, Copy)]
pub struct Cut {
    pub front: u64,
    pub gap: u64,
    pub back: u64,
    pub flag: bool,
    pub touch: bool,
}

// An interval of `size` points whose owner must still release `release`.
pub fn cut_interval(release: u64, size: u64, flag: bool, touch: bool) -> Cut
    ensures { CutTo release size (side flag) touch result }
{
    if release == 0 {
        return Cut {
            front: size,
            gap: 0,
            back: 0,
            flag,
            touch: false,
        };
    }
    if size <= release {
        return Cut {
            front: 0,
            gap: size,
            back: 0,
            flag: true,
            touch: true,
        };
    }
    if touch {
        return Cut {
            front: 0,
            gap: release,
            back: size - release,
            flag,
            touch: false,
        };
    }
    if flag {
        return Cut {
            front: 0,
            gap: release,
            back: size - release,
            flag: false,
            touch: false,
        };
    }
    Cut {
        front: size - release,
        gap: release,
        back: 0,
        flag: true,
        touch: true,
    }
}
