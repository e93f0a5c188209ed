// What the reader of a panel's file answers, as C takes it.
ghost use Rattle.std.specs.Prelude.{◌≡◌};
ghost use Rattle.hewnspandrel.specs.Answers.{head_of};

use panel::file::Header;
use refusal::Refusal;

// 0 and what the file's head says, or the refusal's number and zeros. A record of both: C has no Result.
#[repr(C)]
#[derive(Clone, Copy, Debug, PartialEq, Eq)]
pub struct Head {
    pub answer: u64,
    pub version: u16,
    pub rows: u16,
    pub columns: u16,
}

impl From<Result<Header, Refusal>> for Head {
    ghost from_gives = { λ answer head. head ≡ head_of answer };

    fn from(answer: Result<Header, Refusal>) -> Head {
        match answer {
            Ok(h) => Head {
                answer: 0,
                version: h.version,
                rows: h.shape.rows,
                columns: h.shape.columns,
            },
            Err(x) => Head {
                answer: x.number(),
                version: 0,
                rows: 0,
                columns: 0,
            },
        }
    }
}
