//! Edits of the file with two faults at once, of two steps: that of the earlier step is told.

use crate::edits::Edited;

/// The earlier fault is one of lines and items.
pub const LINES: &[Edited] = &[
    (
        &[
            (
                b"startTime: 2000-01-01T00:00:00",
                b"startTime: 2000-01-01T24:00:00",
            ),
            (b"noon", b"no\xe9n"),
        ],
        b"refused 2 NotAscii 12",
    ),
    (
        &[
            (b"call size t", b"call length t"),
            (b"timeStep: 1800", b"timeStep 1800"),
        ],
        b"refused 3 BadLine 4",
    ),
    (
        &[
            (b"ATM OCN\nstart", b"ATM ATM\nstart"),
            (b"timeStep: 1800", b"::"),
        ],
        b"refused 4 StrayClose 4",
    ),
    (
        &[
            (b"@3600\n", b"@7\n"),
            (b"ATM_substep: 900\n", b""),
            (b"timeStep: 1800", b"startTime: x"),
        ],
        b"refused 5 LabelTwice 4",
    ),
    (
        &[
            (
                b"startTime: 2000-01-01T00:00:00",
                b"startTime: 2001-02-29T00:00:00",
            ),
            (b"OCN\n@\n::\n", b"OCN\n@\n"),
        ],
        b"refused 6 Unclosed 46",
    ),
    (
        &[
            (b"synonym sst tas", b"synonym sst flux"),
            (b"EARTH_component_list", b"EARTH_components"),
        ],
        b"refused 7 MissingLabel EARTH_component_list",
    ),
    (
        &[
            (b"t = sst + t[1,0]", b"t = sst + "),
            (b"runSeq::", b"runSequence::"),
        ],
        b"refused 7 MissingLabel runSeq",
    ),
];

/// One of the head.
pub const HEADS: &[Edited] = &[
    (
        &[
            (b"check t 0 400", b"check u 0 400"),
            (b"ATM OCN\nstart", b"ATM ATM\nstart"),
        ],
        b"refused 8 BadValue 1",
    ),
    (
        &[
            (b"OCN\n@\n::", b"OCN\nATM -> OCN :remapMethod=redist\n@\n::"),
            (b"timeStep: 1800", b"timeStep: 0"),
        ],
        b"refused 8 BadValue 4",
    ),
    (
        &[
            (b"q flux W/m2 optional", b"q flux W/m2 init"),
            (
                b"ATM OCN\nstart",
                b"ATM OCN C0 C1 C2 C3 C4 C5 C6 C7 C8 C9 C10 C11 C12 C13 C14 C15 C16 C17 C18 C19 C20 C21 C22 C23 C24 C25 C26 C27 C28 C29 C30\nstart",
            ),
        ],
        b"refused 9 TooManyComponents 33",
    ),
    (
        &[
            (b"call size t", b"call size t t"),
            (
                b"startTime: 2000-01-01T00:00:00",
                b"startTime: 2000-01-01 00:00:00",
            ),
        ],
        b"refused 8 BadValue 2",
    ),
    (
        &[
            (b"OCN_export::\n", b"OCN_export::\nice tas K = 0\n"),
            (
                b"startTime: 2000-01-01T00:00:00",
                b"startTime: 2000-01-01T24:00:00",
            ),
        ],
        b"refused 10 BadTime 2",
    ),
    (
        &[
            (
                b"t = 0\n::",
                b"t = 0\nv0 = 0\nv1 = 0\nv2 = 0\nv3 = 0\nv4 = 0\nv5 = 0\nv6 = 0\nv7 = 0\nv8 = 0\nv9 = 0\nv10 = 0\nv11 = 0\nv12 = 0\nv13 = 0\n::",
            ),
            (b"ATM_grid: 4 2 periodic", b"ATM_grid: 1024 1024"),
            (b"OCN_grid: 4 2", b"OCN_grid: 8 8"),
            (
                b"startTime: 2000-01-01T00:00:00",
                b"startTime: 0000-01-01T00:00:00",
            ),
        ],
        b"refused 11 YearRange 2",
    ),
    (
        &[
            (b"sst sst K init", b"sst ice K init"),
            (
                b"startTime: 2000-01-01T00:00:00",
                b"startTime: 2001-02-29T00:00:00",
            ),
        ],
        b"refused 12 NoSuchDay 2",
    ),
];

/// One of the dictionary and of alarms.
pub const WORDS: &[Edited] = &[
    (
        &[
            (b"synonym sst tas", b"synonym sst ice"),
            (
                b"stopTime: 2000-01-01T03:00:00",
                b"stopTime: 2000-01-01T00:00:00",
            ),
        ],
        b"refused 13 StopNotAfter 3",
    ),
    (
        &[
            (b"ATM_petlist_bounds: 0 1", b"ATM_petlist_bounds: 63 64"),
            (b"flux W/m2\nsyn", b"flux W/m2 x\nsyn"),
        ],
        b"refused 8 BadValue 8",
    ),
    (
        &[
            (b"@3600\n", b"ATM\n@3600\n"),
            (b"tas K\nflux", b"sst K\nflux"),
        ],
        b"refused 14 NameTwice 7",
    ),
    (
        &[
            (b"OCN\n@\n::", b"OCN\n@\n@\n::"),
            (b"synonym sst tas", b"synonym sst ice"),
        ],
        b"refused 15 NameUnknown 9",
    ),
    (
        &[
            (
                b"@3600\n",
                b"@3600\n@3600\n@3600\n@3600\n@3600\n@3600\n@3600\n@3600\n@3600\n",
            ),
            (b"synonym sst tas", b"synonym sst flux"),
        ],
        b"refused 16 UnitsDiffer 9",
    ),
    (
        &[
            (b"OCN -> ATM\nATM", b"OCN ->\nATM"),
            (b"every 3600 from 0", b"every 0 from 0"),
        ],
        b"refused 8 BadValue 12",
    ),
    (
        &[
            (b"@3600\n", b"@3600:3600\n"),
            (b"ATM_petlist_bounds: 0 1", b"ATM_petlist_bounds: 0 x"),
        ],
        b"refused 8 BadValue 14",
    ),
];

/// One of PETs and fields.
pub const FIELDS: &[Edited] = &[
    (
        &[
            (b"OCN_grid: 4 2", b"OCN_grid: 4 3"),
            (b"q flux W/m2 = i", b"q flux W/cm2 = i"),
        ],
        b"refused 16 UnitsDiffer 25",
    ),
    (
        &[
            (b"ATM\nATM ->", b"ICE\nATM ->"),
            (b"ATM_petlist_bounds: 0 1", b"ATM_petlist_bounds: 1 0"),
        ],
        b"refused 17 PetOutOfRange 14",
    ),
    (
        &[
            (b"t = sst + t[1,0]", b"t = sst + u"),
            (b"ATM_petlist_bounds: 0 1", b"ATM_petlist_bounds: 63 64"),
        ],
        b"refused 17 PetOutOfRange 14",
    ),
    (
        &[
            (b"t = sst + t[1,0]", b"t = sst + t[3,0]"),
            (b"sst sst K init", b"sst ice K init"),
        ],
        b"refused 18 StandardUnknown 22",
    ),
    (
        &[
            (b"ATM_grid: 4 2 periodic", b"ATM_grid: 4 0"),
            (b"q flux W/m2 = i", b"t flux W/m2 = i"),
        ],
        b"refused 19 FieldTwice 25",
    ),
    (
        &[
            (b"stopTime: 2000-01-01T03:00:00\n", b""),
            (
                b"t = 0\n::",
                b"t = 0\nv0 = 0\nv1 = 0\nv2 = 0\nv3 = 0\nv4 = 0\nv5 = 0\nv6 = 0\nv7 = 0\nv8 = 0\nv9 = 0\nv10 = 0\nv11 = 0\nv12 = 0\nv13 = 0\nv14 = 0\nv15 = 0\nv16 = 0\nv17 = 0\nv18 = 0\nv19 = 0\nv20 = 0\nv21 = 0\nv22 = 0\nv23 = 0\nv24 = 0\nv25 = 0\nv26 = 0\nv27 = 0\nv28 = 0\nv29 = 0\nv30 = 0\nv31 = 0\nv32 = 0\nv33 = 0\nv34 = 0\nv35 = 0\nv36 = 0\nv37 = 0\nv38 = 0\nv39 = 0\nv40 = 0\nv41 = 0\nv42 = 0\nv43 = 0\nv44 = 0\nv45 = 0\nv46 = 0\nv47 = 0\nv48 = 0\nv49 = 0\nv50 = 0\nv51 = 0\nv52 = 0\nv53 = 0\nv54 = 0\nv55 = 0\nv56 = 0\nv57 = 0\nv58 = 0\nv59 = 0\nv60 = 0\nv61 = 0\n::",
            ),
        ],
        b"refused 20 TooManyFields ATM 65",
    ),
    (
        &[
            (b"OCN\n@\n::", b"OCN\n::"),
            (b"ATM_phases: run slow", b"ATM_phases: run run"),
        ],
        b"refused 21 PhaseTwice 27",
    ),
];

/// One of phases and grids.
pub const PHASES: &[Edited] = &[
    (
        &[
            (b"OCN_grid: 4 2", b"OCN_grids: 4 2"),
            (
                b"ATM_phases: run slow",
                b"ATM_phases: run slow p0 p1 p2 p3 p4 p5 p6 p7 p8 p9 p10 p11 p12 p13 p14",
            ),
        ],
        b"refused 22 TooManyPhases ATM 17",
    ),
    (
        &[
            (b"@3600\n", b"@0\n"),
            (b"ATM_phase_slow::", b"ATM_phase_fast::"),
        ],
        b"refused 7 MissingLabel ATM_phase_slow",
    ),
    (
        &[
            (b"timeStep: 1800\n", b""),
            (b"@3600\n", b"@*\n"),
            (b"ATM_grid: 4 2 periodic", b"ATM_grid: 4 0"),
        ],
        b"refused 8 BadValue 14",
    ),
    (
        &[
            (b"ATM\nATM ->", b"ATM fast\nATM ->"),
            (b"check t 0 400", b"check t 400 0"),
        ],
        b"refused 8 BadValue 31",
    ),
    (
        &[
            (b"stopTime: 2000-01-01T03:00:00\n", b""),
            (b"startTime: 2000", b"startTime: 9999"),
            (b"@3600\n", b"@3600:36000000000\n"),
            (b"check t 0 400", b"check u 0 400"),
        ],
        b"refused 15 NameUnknown 30",
    ),
    (
        &[
            (b"ATM_substep: 900", b"ATM_substep: 7"),
            (b"OCN_grid: 4 2", b"OCN_grids: 4 2"),
        ],
        b"refused 23 NoGrid OCN",
    ),
    (
        &[
            (
                b"stopTime: 2000-01-01T03:00:00",
                b"stopTime: 2900-01-01T00:00:00",
            ),
            (b"OCN_grid: 4 2", b"OCN_grid: 1025 1024"),
        ],
        b"refused 24 TooManyCells 36",
    ),
];

/// One of blocks and formulas.
pub const RULES: &[Edited] = &[
    (
        &[
            (b"OCN -> ATM\n", b""),
            (b"ATM_decomp: 2 1", b"ATM_decomp: 2 2"),
        ],
        b"refused 25 BlocksMismatch ATM 4 2",
    ),
    (
        &[
            (
                b":remapMethod=weights:weightFile=w.csv",
                b":remapMethod=bilinear",
            ),
            (b"t = sst + t[1,0]", b"t = sst + "),
        ],
        b"refused 26 Syntax 29 5",
    ),
    (
        &[
            (b"OCN -> ATM\n", b"ATM -> ATM\n"),
            (b"t = sst + t[1,0]", b"t = sst + 0.1234567"),
        ],
        b"refused 27 BadNumber 29 6",
    ),
    (
        &[
            (
                b"stopTime: 2000-01-01T03:00:00",
                b"stopTime: 2900-01-01T00:00:00",
            ),
            (b"t = sst + t[1,0]", b"t = sst + t[3,0]"),
        ],
        b"refused 28 FarNeighbour 29 8",
    ),
    (
        &[
            (b"@3600\n", b"@0\n"),
            (
                b"t = sst + t[1,0]",
                b"t = (((((((((((((((((((((((((((((((((t)))))))))))))))))))))))))))))))))",
            ),
        ],
        b"refused 29 DeepFormula 29",
    ),
    (
        &[
            (b"@3600\n", b"@3600:3600\n"),
            (b"call size t", b"call length t"),
        ],
        b"refused 30 EntryUnknown 30",
    ),
    (
        &[
            (b"ATM\nATM ->", b"ICE\nATM ->"),
            (b"call size t", b"call size t t"),
        ],
        b"refused 31 InputsDiffer 30",
    ),
];

/// One of the number of values, or of loops.
pub const VALUES: &[Edited] = &[
    (
        &[
            (b"timeStep: 1800\n", b""),
            (b"@3600\n", b"@*\n"),
            (b"t = sst + t[1,0]", b"t = sst + u"),
        ],
        b"refused 15 NameUnknown 28",
    ),
    (
        &[
            (b"stopTime: 2000-01-01T03:00:00\n", b""),
            (b"startTime: 2000", b"startTime: 9999"),
            (b"@3600\n", b"@3600:36000000000\n"),
            (
                b"t = 0\n::",
                b"t = 0\nv0 = 0\nv1 = 0\nv2 = 0\nv3 = 0\nv4 = 0\nv5 = 0\nv6 = 0\nv7 = 0\nv8 = 0\nv9 = 0\nv10 = 0\nv11 = 0\nv12 = 0\nv13 = 0\n::",
            ),
            (b"ATM_grid: 4 2 periodic", b"ATM_grid: 1024 1024"),
            (b"OCN_grid: 4 2", b"OCN_grid: 8 8"),
        ],
        b"refused 32 TooManyValues 17825920",
    ),
    (
        &[
            (b"OCN_grid: 4 2", b"OCN_grid: 4 3"),
            (b"OCN -> ATM\nATM", b"OCN ->\nATM"),
        ],
        b"refused 33 BadElement 48",
    ),
    (
        &[(b"OCN -> ATM\n", b""), (b"OCN\n@\n::", b"OCN\n@\n@\n::")],
        b"refused 34 LoopStray 52",
    ),
    (
        &[
            (b"q flux W/m2 optional", b"q flux W/m2 init"),
            (b"@3600\n", b"ATM\n@3600\n"),
        ],
        b"refused 35 OutsideLoop 47",
    ),
    (
        &[
            (b"OCN_export::\n", b"OCN_export::\nice tas K = 0\n"),
            (
                b"@3600\n",
                b"@3600\n@3600\n@3600\n@3600\n@3600\n@3600\n@3600\n@3600\n@3600\n",
            ),
        ],
        b"refused 36 LoopTooDeep 56",
    ),
    (
        &[
            (b"OCN_export::\n", b"OCN_export::\nice tas K = 0\n"),
            (b"@3600\n", b"@0\n"),
        ],
        b"refused 37 BadStep 48",
    ),
];

/// One of steps and of what stands in loops.
pub const STEPS: &[Edited] = &[
    (
        &[
            (b"OCN_grid: 4 2", b"OCN_grid: 4 3"),
            (b"timeStep: 1800\n", b""),
            (b"@3600\n", b"@*\n"),
        ],
        b"refused 38 StepUnset 46",
    ),
    (
        &[
            (
                b"stopTime: 2000-01-01T03:00:00",
                b"stopTime: 2900-01-01T00:00:00",
            ),
            (b"@3600\n", b"@7\n"),
            (b"ATM_substep: 900\n", b""),
        ],
        b"refused 39 StepUneven 46",
    ),
    (
        &[(b"OCN -> ATM\n", b""), (b"ATM\nATM ->", b"ICE\nATM ->")],
        b"refused 40 ComponentUnknown 48",
    ),
    (
        &[
            (b"q flux W/m2 optional", b"q flux W/m2 init"),
            (b"ATM\nATM ->", b"ATM fast\nATM ->"),
        ],
        b"refused 41 PhaseUnknown 49",
    ),
    (
        &[
            (b"OCN -> ATM\n", b""),
            (b"ATM_substep: 900", b"ATM_substep: 7"),
        ],
        b"refused 42 SubstepUneven 48",
    ),
    (
        &[
            (b"q flux W/m2 optional", b"q flux W/m2 init"),
            (b"OCN -> ATM\n", b"ATM -> ATM\n"),
        ],
        b"refused 43 SelfLink 48",
    ),
    (
        &[
            (b"OCN_export::\n", b"OCN_export::\nice tas K = 0\n"),
            (
                b":remapMethod=weights:weightFile=w.csv",
                b":remapMethod=bilinear",
            ),
        ],
        b"refused 44 MethodUnsupported 51",
    ),
];

/// One of connectors and of the span, or of matching.
pub const SPANS: &[Edited] = &[
    (
        &[
            (b"OCN_grid: 4 2", b"OCN_grid: 4 3"),
            (b"OCN\n@\n::", b"OCN\nATM -> OCN :remapMethod=redist\n@\n::"),
        ],
        b"refused 45 OptionsDiffer 52",
    ),
    (
        &[
            (
                b"stopTime: 2000-01-01T03:00:00",
                b"stopTime: 2900-01-01T00:00:00",
            ),
            (b"OCN\n@\n::", b"OCN\n::"),
        ],
        b"refused 46 LoopUnclosed 47",
    ),
    (
        &[
            (b"OCN_grid: 4 2", b"OCN_grid: 4 3"),
            (b"stopTime: 2000-01-01T03:00:00\n", b""),
        ],
        b"refused 47 DurationMissing 46",
    ),
    (
        &[(b"OCN -> ATM\n", b""), (b"@3600\n", b"@3600:3600\n")],
        b"refused 48 SpanMismatch 3600 10800",
    ),
    (
        &[
            (b"OCN_export::\n", b"OCN_export::\nice tas K = 0\n"),
            (b"stopTime: 2000-01-01T03:00:00\n", b""),
            (b"startTime: 2000", b"startTime: 9999"),
            (b"@3600\n", b"@3600:36000000000\n"),
        ],
        b"refused 49 SpanTooLong 36000000000",
    ),
    (
        &[
            (b"q flux W/m2 optional", b"q flux W/m2 init"),
            (b"OCN_export::\n", b"OCN_export::\nice tas K = 0\n"),
        ],
        b"refused 50 Ambiguous ATM.sst OCN.ice OCN.sst",
    ),
    (
        &[
            (
                b"stopTime: 2000-01-01T03:00:00",
                b"stopTime: 2900-01-01T00:00:00",
            ),
            (b"OCN -> ATM\n", b""),
        ],
        b"refused 51 Unmatched ATM.sst",
    ),
];

/// One of matching, or of the initialisation.
pub const SIZES: &[Edited] = &[
    (
        &[
            (b"q flux W/m2 optional", b"q flux W/m2 init"),
            (b"OCN_grid: 4 2", b"OCN_grid: 4 3"),
        ],
        b"refused 52 SizeDiffers OCN ATM",
    ),
    (
        &[
            (
                b"stopTime: 2000-01-01T03:00:00",
                b"stopTime: 2900-01-01T00:00:00",
            ),
            (b"q flux W/m2 optional", b"q flux W/m2 init"),
        ],
        b"refused 53 Waiting ATM OCN",
    ),
];
