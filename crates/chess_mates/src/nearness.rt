use chess_attacks::king;
use chess_bits::{Bits, Colour, Kind, Square};
use chess_board::{Board, Men, is_attacked};

// The sum of parts, each as often as its weight says.
fn weighed(parts: &[(u64, u64)]) -> u64 {
    let mut sum = 0u64;
    for part in parts {
        sum = sum.saturating_add(part.0.saturating_mul(part.1));
    }
    sum
}

// How many files and how many ranks lie between two squares.
fn between(a: Square, b: Square) -> (u64, u64) {
    (
        u64::from(a.file().abs_diff(b.file())),
        u64::from(a.rank().abs_diff(b.rank())),
    )
}

// How many moves a king has from a square to another.
fn apart(a: Square, b: Square) -> u64 {
    let (files, ranks) = between(a, b);
    files.max(ranks)
}

// How far a file or a rank is from the nearer edge.
fn to_edge(number: u8) -> u64 {
    u64::from(number.saturating_sub(1).min(8u8.saturating_sub(number)))
}

// Whether a square is dark.
fn is_dark(square: Square) -> bool {
    square.file() % 2 == square.rank() % 2
}

// How far a square is from a corner that a bishop of the side reaches, or from any where it has none.
fn to_corner(men: &Men, side: Colour, square: Square) -> u64 {
    let (file, rank) = (to_edge(square.file()), to_edge(square.rank()));
    let Some(bishop) = men.of_man(side, Kind::Bishop).first() else {
        return file.saturating_add(rank);
    };
    let (low, high) = if is_dark(bishop) {
        (Square::at(1, 1), Square::at(8, 8))
    } else {
        (Square::at(8, 1), Square::at(1, 8))
    };
    let (files, ranks) = between(square, low);
    let (more_files, more_ranks) = between(square, high);
    files
        .saturating_add(ranks)
        .min(more_files.saturating_add(more_ranks))
}

// How many squares a king could go to that its opponent does not attack once it has left.
fn flights(men: &Men, side: Colour, square: Square) -> u64 {
    let mut rest = *men;
    rest.set(square, None);
    let mut count = 0u64;
    for to in king(square).without(men.of(side.other())).iter() {
        if !is_attacked(&rest, side, to) {
            count = count.saturating_add(1);
        }
    }
    count
}

// How far a pawn is from the last rank; each man in its way is three squares more.
fn to_promotion(men: &Men, side: Colour, pawn: Square) -> u64 {
    let occupied = men.occupied();
    let mut at = pawn;
    let mut cost = 0u64;
    for _ in 0..6 {
        let Some(next) = at.step(side.forward()) else {
            return cost;
        };
        cost = cost.saturating_add(if occupied.contains(next) { 5 } else { 2 });
        at = next;
    }
    cost
}

// The least of what the pawns of a side are from the last rank.
fn next_promotion(men: &Men, side: Colour) -> u64 {
    let mut least = 40;
    for pawn in men.of_man(side, Kind::Pawn).iter() {
        least = to_promotion(men, side, pawn).min(least);
    }
    least
}

// How far a pawn is from standing in the way of its own king, where it stands, or as another man.
fn pawn_in_the_way(men: &Men, mated: Colour, pawn: Square, near: u64) -> u64 {
    let steps = to_promotion(men, mated, pawn) / 2;
    let promoted = steps.saturating_add(3);
    let is_at_side = pawn.file() == 1 || pawn.file() == 8;
    if is_at_side && near <= 1 {
        near
    } else if is_at_side {
        near.saturating_add(steps / 2).min(promoted)
    } else {
        promoted
    }
}

// The men of a side that do not help a single knight or bishop to mate it.
fn useless(men: &Men, mated: Colour, bishop: Option<Square>) -> Bits {
    let long = men.of_kind(Kind::King).union(men.of_kind(Kind::Queen));
    let Some(square) = bishop else {
        return long;
    };
    let mut all = long.union(men.of_kind(Kind::Rook));
    for other in men.of_man(mated, Kind::Bishop).iter() {
        if is_dark(other) == is_dark(square) {
            all.insert(other);
        }
    }
    all
}

// How far the men of a side are from standing in the way of its own king.
fn in_the_way(men: &Men, mated: Colour, square: Square) -> u64 {
    let pawns = men.of_kind(Kind::Pawn);
    let bishop = men.of_man(mated.other(), Kind::Bishop).first();
    let mut least = 60;
    for man in men.of(mated).without(useless(men, mated, bishop)).iter() {
        let near = apart(man, square);
        let far = if pawns.contains(man) {
            pawn_in_the_way(men, mated, man, near)
        } else {
            near
        };
        least = far.min(least);
    }
    least
}

// How far men are from a king together; two squares are as near as one.
fn gathered(men: Bits, square: Square) -> u64 {
    let mut sum = 0u64;
    for man in men.iter() {
        sum = sum.saturating_add(apart(man, square).saturating_sub(2));
    }
    sum
}

// How free the king is that is to be mated, and how far from it those are who mate it.
fn surrounded(men: &Men, side: Colour, square: Square, own: Square, pieces: Bits) -> u64 {
    let kings = apart(own, square).saturating_sub(2);
    weighed(&[
        (16, flights(men, side, square)),
        (8, kings),
        (4, gathered(pieces, square)),
    ])
}

// How far a king is from where a single knight or bishop mates it: in a corner, with an own man in its way.
fn cornered(men: &Men, side: Colour, square: Square) -> u64 {
    weighed(&[
        (8, to_corner(men, side, square)),
        (12, in_the_way(men, side.other(), square)),
    ])
}

// How far a king is from the edge, and from a corner there.
fn at_edge(square: Square) -> u64 {
    let (file, rank) = (to_edge(square.file()), to_edge(square.rank()));
    weighed(&[(16, file.min(rank)), (4, file.max(rank))])
}

/// A guess how far a side is from giving checkmate: the less, the nearer. Nothing depends on it but how soon a series
/// of moves is found.
pub fn distance(board: &Board, side: Colour) -> u64 {
    let men = board.men();
    let mated = side.other();
    let Some(square) = men.of_man(mated, Kind::King).first() else {
        return 0;
    };
    let Some(own) = men.of_man(side, Kind::King).first() else {
        return 0;
    };
    let foes = u64::from(men.of(mated).count()).saturating_sub(1);
    let pawns = men.of_kind(Kind::Pawn).union(men.of_kind(Kind::King));
    let pieces = men.of(side).without(pawns);
    let light = men.of_kind(Kind::Knight).union(men.of_kind(Kind::Bishop));
    if pieces.is_empty() {
        weighed(&[(12, next_promotion(men, side)), (12, foes), (4, 20)])
    } else if pieces.count() == 1 && !pieces.meet(light).is_empty() {
        surrounded(men, side, square, own, pieces)
            .saturating_add(cornered(men, side, square))
            .saturating_add(weighed(&[(12, foes.saturating_sub(1))]))
    } else {
        surrounded(men, side, square, own, pieces)
            .saturating_add(at_edge(square))
            .saturating_add(weighed(&[(12, foes)]))
    }
}
