// The constants of `log10`, made by tools/make_tables.sh. A high part is a whole number of 2^-40, and
// the low part is what it lacks.
ghost use Rattle.std.specs.Prelude.{◌≡◌, ◌≤◌};
ghost use Rattle.logs.specs.Tables.{row_at};

// log10(2), 1 / ln(10), and the numbers of the series of log10(1 + r) from r^2 on.
pub(crate) const TWO_HIGH: f64 = 0.3010299956640665;

pub(crate) const TWO_LOW: f64 = -8.532344317057107e-14;

pub(crate) const SLOPE_HIGH: f64 = 0.4342944920063019;

pub(crate) const SLOPE_LOW: f64 = -1.0103050052231683e-8;

pub(crate) const SERIES_2: f64 = -0.2171472409516259;

pub(crate) const SERIES_3: f64 = 0.14476482730108395;

pub(crate) const SERIES_4: f64 = -0.10857362047581295;

pub(crate) const SERIES_5: f64 = 0.08685889638065036;

pub(crate) const SERIES_6: f64 = -0.07238241365054197;

pub(crate) const SERIES_7: f64 = 0.06204206884332169;

// A centre near 32 / (32 + i), of 20 binary digits, and the two parts of minus its logarithm.
#[derive(Drop)]
pub struct Row {
    // The centre: what 1 / m is near to.
    pub centre: f64,
    // The high part of minus its logarithm.
    pub high: f64,
    // The low part: what the high part lacks.
    pub low: f64,
}

// One of 33: a match is compiled to a table that is never filled.
pub(crate) fn row_at(i: u64) -> Row
    requires { i ≤ 32 }
    ensures { result ≡ row_at i }
{
    match i {
        0 => Row {
            centre: 1.0,
            high: 0.0,
            low: 0.0,
        },
        1 => Row {
            centre: 0.9696969985961914,
            high: 0.01336394861482404,
            low: 1.7349456830560584e-13,
        },
        2 => Row {
            centre: 0.9411764144897461,
            high: 0.026328964608183014,
            low: 1.3522669626733144e-13,
        },
        3 => Row {
            centre: 0.9142856597900391,
            high: 0.03891809191645734,
            low: -1.1858980215148808e-13,
        },
        4 => Row {
            centre: 0.8888893127441406,
            high: 0.051152315360013745,
            low: -3.2965633950017193e-13,
        },
        5 => Row {
            centre: 0.8648653030395508,
            high: 0.06305152571621875,
            low: 1.952757956748569e-13,
        },
        6 => Row {
            centre: 0.8421049118041992,
            high: 0.0746337994987698,
            low: -4.956928595373527e-14,
        },
        7 => Row {
            centre: 0.8205127716064453,
            high: 0.08591465459267056,
            low: -1.08234835653942e-13,
        },
        8 => Row {
            centre: 0.8000001907348633,
            high: 0.09690990946455713,
            low: -3.6166056086677774e-13,
        },
        9 => Row {
            centre: 0.7804880142211914,
            high: 0.10763376191334828,
            low: -3.605877165457214e-13,
        },
        10 => Row {
            centre: 0.7619047164916992,
            high: 0.11809933796394034,
            low: 2.3237481693821398e-14,
        },
        11 => Row {
            centre: 0.7441864013671875,
            high: 0.1283182701718033,
            low: 1.8004398500316157e-13,
        },
        12 => Row {
            centre: 0.7272729873657227,
            high: 0.138302542850397,
            low: 1.0229385065742421e-13,
        },
        13 => Row {
            centre: 0.7111110687255859,
            high: 0.1480625613412485,
            low: 1.5828565418117811e-13,
        },
        14 => Row {
            centre: 0.6956520080566406,
            high: 0.15760795690584928,
            low: -2.9554954427015774e-13,
        },
        15 => Row {
            centre: 0.6808509826660156,
            high: 0.1669479313877673,
            low: -1.6094411983037488e-14,
        },
        16 => Row {
            centre: 0.6666669845581055,
            high: 0.17609105196788732,
            low: 9.671730574516256e-14,
        },
        17 => Row {
            centre: 0.6530609130859375,
            high: 0.18504630879670003,
            low: -2.963989794255992e-13,
        },
        18 => Row {
            centre: 0.6400003433227539,
            high: 0.19381979304216657,
            low: 2.9385530375064903e-13,
        },
        19 => Row {
            centre: 0.6274509429931641,
            high: 0.20242022366437595,
            low: -3.7647039214857413e-13,
        },
        20 => Row {
            centre: 0.6153850555419922,
            high: 0.210853054682957,
            low: 4.274044877890171e-13,
        },
        21 => Row {
            centre: 0.6037731170654297,
            high: 0.21912622779836965,
            low: 2.319746084590847e-13,
        },
        22 => Row {
            centre: 0.5925922393798828,
            high: 0.22724404036307533,
            low: -2.524332450130782e-13,
        },
        23 => Row {
            centre: 0.5818185806274414,
            high: 0.23521241348589683,
            low: -9.263676672663166e-14,
        },
        24 => Row {
            centre: 0.5714282989501953,
            high: 0.24303825577408134,
            low: 9.052508795378852e-15,
        },
        25 => Row {
            centre: 0.5614032745361328,
            high: 0.25072505855405325,
            low: 3.482283274032874e-13,
        },
        26 => Row {
            centre: 0.5517244338989258,
            high: 0.2582777822690332,
            low: 3.457031580764946e-13,
        },
        27 => Row {
            centre: 0.5423727035522461,
            high: 0.2657021756949689,
            low: 1.18419934469288e-13,
        },
        28 => Row {
            centre: 0.5333337783813477,
            high: 0.27300090966036805,
            low: -3.569352179353486e-14,
        },
        29 => Row {
            centre: 0.5245904922485352,
            high: 0.28017958488817385,
            low: 1.0488370802253838e-13,
        },
        30 => Row {
            centre: 0.5161294937133789,
            high: 0.28724132288880355,
            low: 1.9309941284911303e-13,
        },
        31 => Row {
            centre: 0.5079364776611328,
            high: 0.2941905970192238,
            low: 4.210350950508441e-13,
        },
        _ => Row {
            centre: 0.5,
            high: 0.3010299956640665,
            low: -8.532344317057107e-14,
        },
    }
}
