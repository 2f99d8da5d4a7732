// The table of house slopes, and the look-up in it. Its rule is tested here, once, where the table is all that there is to look at.
#![tactic(auto)]

ghost use Rattle.house.specs.House.{SlopeTold};

// Every size, in rising order, and beside each its house slope: the smallest slope that it allows.
static TABLE: [(usize, usize); 53] = [
    (5, 2),
    (7, 3),
    (11, 2),
    (13, 2),
    (17, 3),
    (19, 2),
    (23, 5),
    (29, 2),
    (31, 3),
    (37, 2),
    (41, 6),
    (43, 3),
    (47, 5),
    (53, 2),
    (59, 2),
    (61, 2),
    (67, 2),
    (71, 7),
    (73, 5),
    (79, 3),
    (83, 2),
    (89, 3),
    (97, 5),
    (101, 2),
    (103, 5),
    (107, 2),
    (109, 6),
    (113, 3),
    (127, 3),
    (131, 2),
    (137, 3),
    (139, 2),
    (149, 2),
    (151, 6),
    (157, 5),
    (163, 2),
    (167, 5),
    (173, 2),
    (179, 2),
    (181, 2),
    (191, 19),
    (193, 5),
    (197, 2),
    (199, 3),
    (211, 2),
    (223, 3),
    (227, 2),
    (229, 6),
    (233, 3),
    (239, 7),
    (241, 7),
    (251, 6),
    (257, 3),
];

// The house slope of p, where p is a size.
pub fn slope(p: usize) -> Option<usize>
    ensures { SlopeTold p result }
{
    let (_, slope) = TABLE.iter().find(|(size, _)| *size == p)?;
    Some(*slope)
}
