// The figures that the rule book works out.
pub struct Figures {
    // Notice 7: party 1 sells to party 2, in quarter-hours 33 to 36, 500 kWh in each. Its lodging and its confirmation.
    pub lodging: [u8; 14],
    pub confirmation: [u8; 14],
}
