//! Filters by their bytes, each with its truth on the row of the setting.
use filter::truth::Truth;

/// A filter, as it stands in a query's bytes, and its truth.
pub(crate) struct Case {
    pub(crate) name: &'static str,
    pub(crate) filter: &'static [u8],
    pub(crate) truth: Truth,
}

/// Situations, each with one thing that decides. Variable v is written as 2v + 1, and term t as 2t.
pub(crate) const CASES: [Case; 41] = [
    Case {
        name: "no nodes",
        filter: &[0],
        truth: Truth::True,
    },
    Case {
        name: "an integer equals itself",
        filter: &[1, 1, 9, 9],
        truth: Truth::True,
    },
    Case {
        name: "integers with one value and two numbers are equal",
        filter: &[1, 1, 9, 11],
        truth: Truth::True,
    },
    Case {
        name: "so are they where they stand as terms",
        filter: &[1, 1, 8, 10],
        truth: Truth::True,
    },
    Case {
        name: "integers with two values are not equal",
        filter: &[1, 1, 9, 13],
        truth: Truth::False,
    },
    Case {
        name: "a name equals itself, as a term and as a variable's value",
        filter: &[1, 1, 2, 3],
        truth: Truth::True,
    },
    Case {
        name: "two names are not equal",
        filter: &[1, 1, 3, 17],
        truth: Truth::False,
    },
    Case {
        name: "a text equals itself",
        filter: &[1, 1, 5, 5],
        truth: Truth::True,
    },
    Case {
        name: "two texts are not equal",
        filter: &[1, 1, 5, 7],
        truth: Truth::False,
    },
    Case {
        name: "a text does not equal the integer 0",
        filter: &[1, 1, 5, 15],
        truth: Truth::False,
    },
    Case {
        name: "the integer 0 does not equal a text",
        filter: &[1, 1, 15, 5],
        truth: Truth::False,
    },
    Case {
        name: "a name does not equal the integer 0",
        filter: &[1, 1, 3, 15],
        truth: Truth::False,
    },
    Case {
        name: "a term that has no record equals itself",
        filter: &[1, 1, 0x80, 0x89, 0x7A, 0x80, 0x89, 0x7A],
        truth: Truth::True,
    },
    Case {
        name: "equal, and the first variable has no value",
        filter: &[1, 1, 1, 9],
        truth: Truth::Error,
    },
    Case {
        name: "equal, and the second variable has no value",
        filter: &[1, 1, 9, 29],
        truth: Truth::Error,
    },
    Case {
        name: "a variable without a value against itself",
        filter: &[1, 1, 1, 1],
        truth: Truth::Error,
    },
    Case {
        name: "a smaller integer is less",
        filter: &[1, 2, 13, 15],
        truth: Truth::True,
    },
    Case {
        name: "a smaller integer with the greater number is less",
        filter: &[1, 2, 13, 8],
        truth: Truth::True,
    },
    Case {
        name: "a greater integer is not less",
        filter: &[1, 2, 9, 13],
        truth: Truth::False,
    },
    Case {
        name: "of integers with one value none is less",
        filter: &[1, 2, 9, 11],
        truth: Truth::False,
    },
    Case {
        name: "two texts under less",
        filter: &[1, 2, 5, 7],
        truth: Truth::Error,
    },
    Case {
        name: "a text and itself under less",
        filter: &[1, 2, 5, 5],
        truth: Truth::Error,
    },
    Case {
        name: "two names under less",
        filter: &[1, 2, 3, 17],
        truth: Truth::Error,
    },
    Case {
        name: "a text and an integer under less",
        filter: &[1, 2, 5, 9],
        truth: Truth::Error,
    },
    Case {
        name: "an integer and a name under less",
        filter: &[1, 2, 13, 3],
        truth: Truth::Error,
    },
    Case {
        name: "less, and the first variable has no value",
        filter: &[1, 2, 1, 9],
        truth: Truth::Error,
    },
    Case {
        name: "less, and the second variable has no value",
        filter: &[1, 2, 9, 19],
        truth: Truth::Error,
    },
    Case {
        name: "a variable with a value is bound",
        filter: &[1, 3, 2],
        truth: Truth::True,
    },
    Case {
        name: "variable 0 has no value",
        filter: &[1, 3, 0],
        truth: Truth::False,
    },
    Case {
        name: "variable 15 has one",
        filter: &[1, 3, 15],
        truth: Truth::True,
    },
    Case {
        name: "variable 14 has none",
        filter: &[1, 3, 14],
        truth: Truth::False,
    },
    Case {
        name: "not true",
        filter: &[2, 3, 2, 4, 0],
        truth: Truth::False,
    },
    Case {
        name: "not false",
        filter: &[2, 3, 0, 4, 0],
        truth: Truth::True,
    },
    Case {
        name: "not an error",
        filter: &[2, 1, 1, 1, 4, 0],
        truth: Truth::Error,
    },
    Case {
        name: "the last node decides, and not the first",
        filter: &[2, 3, 2, 3, 0],
        truth: Truth::False,
    },
    Case {
        name: "the last node decides, though it names none",
        filter: &[3, 3, 0, 4, 0, 1, 1, 1],
        truth: Truth::Error,
    },
    Case {
        name: "a comparison between nodes that compare nothing is at its number",
        filter: &[4, 3, 0, 1, 9, 11, 3, 0, 4, 1],
        truth: Truth::False,
    },
    Case {
        name: "a node that two others name",
        filter: &[4, 3, 2, 4, 0, 6, 0, 1, 5, 2, 1],
        truth: Truth::False,
    },
    Case {
        name: "an error that one side outweighs, shared",
        filter: &[4, 1, 1, 1, 3, 2, 6, 0, 1, 5, 2, 1],
        truth: Truth::True,
    },
    Case {
        name: "sixteen nodes, each with the one before it twice",
        filter: &[
            16, 3, 2, 5, 0, 0, 6, 1, 1, 5, 2, 2, 6, 3, 3, 5, 4, 4, 6, 5, 5, 5, 6, 6, 6, 7, 7, 5, 8,
            8, 6, 9, 9, 5, 10, 10, 6, 11, 11, 5, 12, 12, 6, 13, 13, 5, 14, 14,
        ],
        truth: Truth::True,
    },
    Case {
        name: "sixteen nodes that pass an error on",
        filter: &[
            16, 1, 1, 1, 5, 0, 0, 6, 1, 1, 5, 2, 2, 6, 3, 3, 5, 4, 4, 6, 5, 5, 5, 6, 6, 6, 7, 7, 5,
            8, 8, 6, 9, 9, 5, 10, 10, 6, 11, 11, 5, 12, 12, 6, 13, 13, 5, 14, 14,
        ],
        truth: Truth::Error,
    },
];
