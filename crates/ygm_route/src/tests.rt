//! Worked cases, and every pair of ranks of one layout.
ghost use Rattle.std.specs.Prelude.{◌≡◌, [], ◌∷◌};
ghost use Rattle.ygm_route.specs.declared.scheme.Scheme.TheVariants.{Direct, Nr, Nlnr};
ghost use Rattle.ygm_route.specs.Path.{path};

use super::*;
use std::process::Abort;
use std::test::Fail;

#[test]
fn layouts_and_their_faults(rt: HostRuntime) -> Result<(), Fail> {
    let layout = Layout::new(32, 8)?;
    assert_eq!(rt; (layout.ranks(), layout.cores()), (32, 8));
    assert_eq!(rt; (layout.node_of(29), layout.core_of(29)), (3, 5));
    let refused = [
        (0, 0, LayoutFault::NoRanks),
        (33, 0, LayoutFault::TooManyRanks),
        (8, 0, LayoutFault::NoCores),
        (6, 4, LayoutFault::Uneven),
        (4, 6, LayoutFault::Uneven),
    ];
    for (ranks, cores, fault) in refused {
        assert_eq!(rt;
            Layout::new(ranks, cores),
            Err(fault),
            "{ranks} ranks, {cores} cores"
        );
    }
    Ok(())
}

#[test]
fn worked_paths_over_two_nodes(rt: HostRuntime) -> Result<(), Fail> {
    paths_by_definition();
    let layout = Layout::new(8, 4)?;

    // each rank of a path with its next hop and the links that remain
    let hops = [
        (Scheme::Nr, 1, 6, 5, 2),
        (Scheme::Nr, 5, 6, 6, 1),
        (Scheme::Nlnr, 0, 6, 1, 3),
        (Scheme::Nlnr, 1, 6, 5, 2),
        (Scheme::Nlnr, 5, 6, 6, 1),
        (Scheme::Nlnr, 1, 5, 5, 1),
        (Scheme::Direct, 3, 3, 3, 1),
        (Scheme::Nr, 3, 3, 3, 1),
        (Scheme::Nlnr, 3, 3, 3, 1),
    ];
    for (scheme, here, to, hop, links) in hops {
        assert!(rt; here < 8 && to < 8);
        assert_eq!(rt;
            next_hop(&layout, scheme, here, to),
            hop,
            "from {here} to {to}"
        );
        assert_eq!(rt;
            hops_to(&layout, scheme, here, to),
            links,
            "from {here} to {to}"
        );
    }
    Ok(())
}

/// The same paths, by the definition of a path.
#[tactic(auto, unfolding(crate::specs::Path::path, crate::specs::Hop::hop))]
fn paths_by_definition()
    ensures direct { path (record { ranks = 8; cores = 4 }) Direct 1 6 ≡ 1 ∷ 6 ∷ [] }
    ensures nr { path (record { ranks = 8; cores = 4 }) Nr 1 6 ≡ 1 ∷ 5 ∷ 6 ∷ [] }
    ensures nlnr { path (record { ranks = 8; cores = 4 }) Nlnr 0 6 ≡ 0 ∷ 1 ∷ 5 ∷ 6 ∷ [] }
    ensures from_gateway { path (record { ranks = 8; cores = 4 }) Nlnr 1 5 ≡ 1 ∷ 5 ∷ [] }
    ensures to_oneself { path (record { ranks = 8; cores = 4 }) Nlnr 3 3 ≡ 3 ∷ 3 ∷ [] }
{}

// For each sender a row: its next hop towards each rank, as the character 48 above it, and the number of
// links to each rank. Made by this Python:
//
//     nodes = [list(range(n, n + 8)) for n in range(0, 32, 8)]
//     home = {r: (nodes.index(row), row.index(r)) for row in nodes for r in row}
//
//     def step(scheme, here, to):
//         (n, c), (m, _) = home[here], home[to]
//         if scheme == "direct" or n == m: return to
//         if scheme == "nr": return nodes[m][c]
//         door = (n + m) % 8
//         return nodes[m][door] if c == door else nodes[n][door]
//
//     def walk(scheme, here, to):
//         hops = 0
//         while True:
//             here, hops = step(scheme, here, to), hops + 1
//             if here == to: return hops
//
//     for scheme in ["direct", "nr", "nlnr"]:
//         for h in range(32):
//             print("".join(chr(48 + step(scheme, h, t)) for t in range(32)),
//                   "".join(str(walk(scheme, h, t)) for t in range(32)))
type Row = (&'static [u8; 32], &'static [u8; 32]);

const DIRECT: [Row; 32] = [(
    b"0123456789:;<=>?@ABCDEFGHIJKLMNO",
    b"11111111111111111111111111111111",
); 32];

const NR: [Row; 32] = [
    (
        b"0123456788888888@@@@@@@@HHHHHHHH",
        b"11111111122222221222222212222222",
    ),
    (
        b"0123456799999999AAAAAAAAIIIIIIII",
        b"11111111212222222122222221222222",
    ),
    (
        b"01234567::::::::BBBBBBBBJJJJJJJJ",
        b"11111111221222222212222222122222",
    ),
    (
        b"01234567;;;;;;;;CCCCCCCCKKKKKKKK",
        b"11111111222122222221222222212222",
    ),
    (
        b"01234567<<<<<<<<DDDDDDDDLLLLLLLL",
        b"11111111222212222222122222221222",
    ),
    (
        b"01234567========EEEEEEEEMMMMMMMM",
        b"11111111222221222222212222222122",
    ),
    (
        b"01234567>>>>>>>>FFFFFFFFNNNNNNNN",
        b"11111111222222122222221222222212",
    ),
    (
        b"01234567????????GGGGGGGGOOOOOOOO",
        b"11111111222222212222222122222221",
    ),
    (
        b"0000000089:;<=>?@@@@@@@@HHHHHHHH",
        b"12222222111111111222222212222222",
    ),
    (
        b"1111111189:;<=>?AAAAAAAAIIIIIIII",
        b"21222222111111112122222221222222",
    ),
    (
        b"2222222289:;<=>?BBBBBBBBJJJJJJJJ",
        b"22122222111111112212222222122222",
    ),
    (
        b"3333333389:;<=>?CCCCCCCCKKKKKKKK",
        b"22212222111111112221222222212222",
    ),
    (
        b"4444444489:;<=>?DDDDDDDDLLLLLLLL",
        b"22221222111111112222122222221222",
    ),
    (
        b"5555555589:;<=>?EEEEEEEEMMMMMMMM",
        b"22222122111111112222212222222122",
    ),
    (
        b"6666666689:;<=>?FFFFFFFFNNNNNNNN",
        b"22222212111111112222221222222212",
    ),
    (
        b"7777777789:;<=>?GGGGGGGGOOOOOOOO",
        b"22222221111111112222222122222221",
    ),
    (
        b"0000000088888888@ABCDEFGHHHHHHHH",
        b"12222222122222221111111112222222",
    ),
    (
        b"1111111199999999@ABCDEFGIIIIIIII",
        b"21222222212222221111111121222222",
    ),
    (
        b"22222222::::::::@ABCDEFGJJJJJJJJ",
        b"22122222221222221111111122122222",
    ),
    (
        b"33333333;;;;;;;;@ABCDEFGKKKKKKKK",
        b"22212222222122221111111122212222",
    ),
    (
        b"44444444<<<<<<<<@ABCDEFGLLLLLLLL",
        b"22221222222212221111111122221222",
    ),
    (
        b"55555555========@ABCDEFGMMMMMMMM",
        b"22222122222221221111111122222122",
    ),
    (
        b"66666666>>>>>>>>@ABCDEFGNNNNNNNN",
        b"22222212222222121111111122222212",
    ),
    (
        b"77777777????????@ABCDEFGOOOOOOOO",
        b"22222221222222211111111122222221",
    ),
    (
        b"0000000088888888@@@@@@@@HIJKLMNO",
        b"12222222122222221222222211111111",
    ),
    (
        b"1111111199999999AAAAAAAAHIJKLMNO",
        b"21222222212222222122222211111111",
    ),
    (
        b"22222222::::::::BBBBBBBBHIJKLMNO",
        b"22122222221222222212222211111111",
    ),
    (
        b"33333333;;;;;;;;CCCCCCCCHIJKLMNO",
        b"22212222222122222221222211111111",
    ),
    (
        b"44444444<<<<<<<<DDDDDDDDHIJKLMNO",
        b"22221222222212222222122211111111",
    ),
    (
        b"55555555========EEEEEEEEHIJKLMNO",
        b"22222122222221222222212211111111",
    ),
    (
        b"66666666>>>>>>>>FFFFFFFFHIJKLMNO",
        b"22222212222222122222221211111111",
    ),
    (
        b"77777777????????GGGGGGGGHIJKLMNO",
        b"22222221222222212222222111111111",
    ),
];

const NLNR: [Row; 32] = [
    (
        b"01234567111111112222222233333333",
        b"11111111323333333323333333323333",
    ),
    (
        b"01234567999999992222222233333333",
        b"11111111212222223323333333323333",
    ),
    (
        b"0123456711111111BBBBBBBB33333333",
        b"11111111323333332212222233323333",
    ),
    (
        b"012345671111111122222222KKKKKKKK",
        b"11111111323333333323333322212222",
    ),
    (
        b"01234567111111112222222233333333",
        b"11111111323333333323333333323333",
    ),
    (
        b"01234567111111112222222233333333",
        b"11111111323333333323333333323333",
    ),
    (
        b"01234567111111112222222233333333",
        b"11111111323333333323333333323333",
    ),
    (
        b"01234567111111112222222233333333",
        b"11111111323333333323333333323333",
    ),
    (
        b"9999999989:;<=>?;;;;;;;;<<<<<<<<",
        b"32333333111111113332333333332333",
    ),
    (
        b"1111111189:;<=>?;;;;;;;;<<<<<<<<",
        b"21222222111111113332333333332333",
    ),
    (
        b"9999999989:;<=>?;;;;;;;;<<<<<<<<",
        b"32333333111111113332333333332333",
    ),
    (
        b"9999999989:;<=>?CCCCCCCC<<<<<<<<",
        b"32333333111111112221222233332333",
    ),
    (
        b"9999999989:;<=>?;;;;;;;;LLLLLLLL",
        b"32333333111111113332333322221222",
    ),
    (
        b"9999999989:;<=>?;;;;;;;;<<<<<<<<",
        b"32333333111111113332333333332333",
    ),
    (
        b"9999999989:;<=>?;;;;;;;;<<<<<<<<",
        b"32333333111111113332333333332333",
    ),
    (
        b"9999999989:;<=>?;;;;;;;;<<<<<<<<",
        b"32333333111111113332333333332333",
    ),
    (
        b"BBBBBBBBCCCCCCCC@ABCDEFGEEEEEEEE",
        b"33233333333233331111111133333233",
    ),
    (
        b"BBBBBBBBCCCCCCCC@ABCDEFGEEEEEEEE",
        b"33233333333233331111111133333233",
    ),
    (
        b"22222222CCCCCCCC@ABCDEFGEEEEEEEE",
        b"22122222333233331111111133333233",
    ),
    (
        b"BBBBBBBB;;;;;;;;@ABCDEFGEEEEEEEE",
        b"33233333222122221111111133333233",
    ),
    (
        b"BBBBBBBBCCCCCCCC@ABCDEFGEEEEEEEE",
        b"33233333333233331111111133333233",
    ),
    (
        b"BBBBBBBBCCCCCCCC@ABCDEFGMMMMMMMM",
        b"33233333333233331111111122222122",
    ),
    (
        b"BBBBBBBBCCCCCCCC@ABCDEFGEEEEEEEE",
        b"33233333333233331111111133333233",
    ),
    (
        b"BBBBBBBBCCCCCCCC@ABCDEFGEEEEEEEE",
        b"33233333333233331111111133333233",
    ),
    (
        b"KKKKKKKKLLLLLLLLMMMMMMMMHIJKLMNO",
        b"33323333333323333333323311111111",
    ),
    (
        b"KKKKKKKKLLLLLLLLMMMMMMMMHIJKLMNO",
        b"33323333333323333333323311111111",
    ),
    (
        b"KKKKKKKKLLLLLLLLMMMMMMMMHIJKLMNO",
        b"33323333333323333333323311111111",
    ),
    (
        b"33333333LLLLLLLLMMMMMMMMHIJKLMNO",
        b"22212222333323333333323311111111",
    ),
    (
        b"KKKKKKKK<<<<<<<<MMMMMMMMHIJKLMNO",
        b"33323333222212223333323311111111",
    ),
    (
        b"KKKKKKKKLLLLLLLLEEEEEEEEHIJKLMNO",
        b"33323333333323332222212211111111",
    ),
    (
        b"KKKKKKKKLLLLLLLLMMMMMMMMHIJKLMNO",
        b"33323333333323333333323311111111",
    ),
    (
        b"KKKKKKKKLLLLLLLLMMMMMMMMHIJKLMNO",
        b"33323333333323333333323311111111",
    ),
];

fn agrees(rt: &impl Abort, scheme: Scheme, table: &[Row; 32]) -> Result<(), Fail> {
    let layout = Layout::new(32, 8)?;
    for here in 0..32 {
        let (hops, links) = table[here as usize];
        for to in 0..32 {
            let hop = u32::from(hops[to as usize]);
            assert_eq!(rt;
                48 + next_hop(&layout, scheme, here, to),
                hop,
                "from {here} to {to}"
            );
            let count = u32::from(links[to as usize]);
            assert_eq!(rt;
                48 + hops_to(&layout, scheme, here, to),
                count,
                "from {here} to {to}"
            );
        }
    }
    Ok(())
}

#[test]
fn every_pair_of_32_ranks(rt: HostRuntime) -> Result<(), Fail> {
    agrees(&rt, Scheme::Direct, &DIRECT)?;
    agrees(&rt, Scheme::Nr, &NR)?;
    agrees(&rt, Scheme::Nlnr, &NLNR)
}
