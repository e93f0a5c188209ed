// The answer to the question for the need, as C takes it.
ghost use Rattle.std.specs.Prelude.{◌≡◌};
ghost use Rattle.hewnspandrel.specs.Answers.{length_of};

use refusal::Refusal;

// 0 and the length in elements, or the refusal's number and 0. A record of both: C has no Result.
#[repr(C)]
#[derive(Clone, Copy, Debug, PartialEq, Eq)]
pub struct Length {
    pub answer: u64,
    pub elements: usize,
}

impl From<Result<usize, Refusal>> for Length {
    ghost from_gives = { λ answer length. length ≡ length_of answer };

    fn from(answer: Result<usize, Refusal>) -> Length {
        match answer {
            Ok(elements) => Length {
                answer: 0,
                elements,
            },
            Err(x) => Length {
                answer: x.number(),
                elements: 0,
            },
        }
    }
}
