//! Redemption candidates, computed with whole numbers outside the program.
//!
//! A line `base` gives an issue with its calls, a settlement, and how many candidates there are.
//! Each line after it gives one of these: its number from 0 in order of date, its date, its price,
//! its label, and how it is priced: by `many` payments, with their number n, A, the accrued
//! interest and the redemption; by `one` payment that is due, or that of a `note`, the accrued
//! interest and the days left; or by the days of a `discounted` note.

pub const CASES: &str = "\
base periodic dated=2020-01-01 first=2020-07-01 maturity=2032-01-01 coupon=4 settle=2024-03-01 \
     candidates=1
no=0 date=2032-01-01 at=100 MATURITY many n=16 a=60 accrued=240000000000 redemption=36000000000000
base periodic dated=2020-01-01 first=2020-07-01 maturity=2032-01-01 coupon=4 call=2024-07-01:102 \
     call=2025-01-01:100.000001 call=2025-07-01:100 call=2027-01-01:99.5 settle=2024-03-31 \
     candidates=5
no=0 date=2024-07-01 at=102 CALL one due=37440000000000 accrued=360000000000 left=90
no=1 date=2025-01-01 at=100.000001 CALL many n=2 a=90 accrued=360000000000 redemption=36000000360000
no=2 date=2025-07-01 at=100 PAR many n=3 a=90 accrued=360000000000 redemption=36000000000000
no=3 date=2027-01-01 at=99.5 CALL many n=6 a=90 accrued=360000000000 redemption=35820000000000
no=4 date=2032-01-01 at=100 MATURITY many n=16 a=90 accrued=360000000000 redemption=36000000000000
base periodic dated=2020-01-01 first=2020-07-01 maturity=2032-01-01 coupon=4 call=2024-07-01:102 \
     call=2025-01-01:100.000001 call=2025-07-01:100 call=2027-01-01:99.5 settle=2024-06-30 \
     candidates=5
no=0 date=2024-07-01 at=102 CALL one due=37440000000000 accrued=716000000000 left=1
no=1 date=2025-01-01 at=100.000001 CALL many n=2 a=179 accrued=716000000000 \
     redemption=36000000360000
no=2 date=2025-07-01 at=100 PAR many n=3 a=179 accrued=716000000000 redemption=36000000000000
no=3 date=2027-01-01 at=99.5 CALL many n=6 a=179 accrued=716000000000 redemption=35820000000000
no=4 date=2032-01-01 at=100 MATURITY many n=16 a=179 accrued=716000000000 redemption=36000000000000
base periodic dated=2020-01-01 first=2020-07-01 maturity=2032-01-01 coupon=4 call=2024-07-01:102 \
     call=2025-01-01:100.000001 call=2025-07-01:100 call=2027-01-01:99.5 settle=2024-07-01 \
     candidates=4
no=0 date=2025-01-01 at=100.000001 CALL one due=36720000360000 accrued=0 left=180
no=1 date=2025-07-01 at=100 PAR many n=2 a=0 accrued=0 redemption=36000000000000
no=2 date=2027-01-01 at=99.5 CALL many n=5 a=0 accrued=0 redemption=35820000000000
no=3 date=2032-01-01 at=100 MATURITY many n=15 a=0 accrued=0 redemption=36000000000000
base periodic dated=2020-01-01 first=2020-07-01 maturity=2032-01-01 coupon=4 call=2024-07-01:102 \
     call=2025-01-01:100.000001 call=2025-07-01:100 call=2027-01-01:99.5 settle=2024-07-02 \
     candidates=4
no=0 date=2025-01-01 at=100.000001 CALL one due=36720000360000 accrued=4000000000 left=179
no=1 date=2025-07-01 at=100 PAR many n=2 a=1 accrued=4000000000 redemption=36000000000000
no=2 date=2027-01-01 at=99.5 CALL many n=5 a=1 accrued=4000000000 redemption=35820000000000
no=3 date=2032-01-01 at=100 MATURITY many n=15 a=1 accrued=4000000000 redemption=36000000000000
base periodic dated=2020-01-01 first=2020-07-01 maturity=2032-01-01 coupon=4 call=2024-07-01:102 \
     call=2025-01-01:100.000001 call=2025-07-01:100 call=2027-01-01:99.5 settle=2026-12-31 \
     candidates=2
no=0 date=2027-01-01 at=99.5 CALL one due=36540000000000 accrued=720000000000 left=0
no=1 date=2032-01-01 at=100 MATURITY many n=11 a=180 accrued=720000000000 redemption=36000000000000
base periodic dated=2020-01-01 first=2020-07-01 maturity=2032-01-01 coupon=4 call=2024-07-01:102 \
     call=2025-01-01:100.000001 call=2025-07-01:100 call=2027-01-01:99.5 settle=2027-01-01 \
     candidates=1
no=0 date=2032-01-01 at=100 MATURITY many n=10 a=0 accrued=0 redemption=36000000000000
base periodic dated=2020-01-01 first=2020-07-01 maturity=2032-01-01 coupon=4 call=2024-07-01:102 \
     call=2025-01-01:100.000001 call=2025-07-01:100 call=2027-01-01:99.5 settle=2031-07-01 \
     candidates=1
no=0 date=2032-01-01 at=100 MATURITY one due=36720000000000 accrued=0 left=180
base periodic dated=2023-08-31 first=2024-02-28 maturity=2026-08-28 coupon=3.0625 \
     call=2024-02-28:101 call=2024-08-28:100 call=2025-02-28:100.5 settle=2023-08-31 \
     candidates=4
no=0 date=2024-02-28 at=101 CALL one due=36905125000000 accrued=0 left=177
no=1 date=2024-08-28 at=100 PAR many n=2 a=3 accrued=0 redemption=36000000000000
no=2 date=2025-02-28 at=100.5 CALL many n=3 a=3 accrued=0 redemption=36180000000000
no=3 date=2026-08-28 at=100 MATURITY many n=6 a=3 accrued=0 redemption=36000000000000
base periodic dated=2023-08-31 first=2024-02-28 maturity=2026-08-28 coupon=3.0625 \
     call=2024-02-28:101 call=2024-08-28:100 call=2025-02-28:100.5 settle=2024-02-28 \
     candidates=3
no=0 date=2024-08-28 at=100 PAR one due=36551250000000 accrued=0 left=180
no=1 date=2025-02-28 at=100.5 CALL many n=2 a=0 accrued=0 redemption=36180000000000
no=2 date=2026-08-28 at=100 MATURITY many n=5 a=0 accrued=0 redemption=36000000000000
base periodic dated=2023-08-31 first=2024-02-28 maturity=2026-08-28 coupon=3.0625 \
     call=2024-02-28:101 call=2024-08-28:100 call=2025-02-28:100.5 settle=2024-02-29 \
     candidates=3
no=0 date=2024-08-28 at=100 PAR one due=36551250000000 accrued=3062500000 left=179
no=1 date=2025-02-28 at=100.5 CALL many n=2 a=1 accrued=3062500000 redemption=36180000000000
no=2 date=2026-08-28 at=100 MATURITY many n=5 a=1 accrued=3062500000 redemption=36000000000000
base periodic dated=2023-08-31 first=2024-02-28 maturity=2026-08-28 coupon=3.0625 \
     call=2024-02-28:101 call=2024-08-28:100 call=2025-02-28:100.5 settle=2026-08-27 \
     candidates=1
no=0 date=2026-08-28 at=100 MATURITY one due=36551250000000 accrued=548187500000 left=1
base periodic dated=2024-01-15 first=2024-10-01 maturity=2026-10-01 coupon=6 call=2024-10-01:103 \
     call=2025-04-01:100 settle=2024-02-01 candidates=3
no=0 date=2024-10-01 at=103 CALL many n=2 a=120 accrued=96000000000 redemption=37080000000000
no=1 date=2025-04-01 at=100 PAR many n=3 a=120 accrued=96000000000 redemption=36000000000000
no=2 date=2026-10-01 at=100 MATURITY many n=6 a=120 accrued=96000000000 redemption=36000000000000
base zero dated=2020-01-01 maturity=2026-07-15 call=2025-01-15:80.25 call=2026-01-15:100 \
     settle=2024-08-31 candidates=3
no=0 date=2025-01-15 at=80.25 CALL one due=28890000000000 accrued=0 left=134
no=1 date=2026-01-15 at=100 PAR many n=3 a=46 accrued=0 redemption=36000000000000
no=2 date=2026-07-15 at=100 MATURITY many n=4 a=46 accrued=0 redemption=36000000000000
base zero dated=2020-01-01 maturity=2026-07-15 call=2025-01-15:80.25 call=2026-01-15:100 \
     settle=2025-01-15 candidates=2
no=0 date=2026-01-15 at=100 PAR many n=2 a=0 accrued=0 redemption=36000000000000
no=1 date=2026-07-15 at=100 MATURITY many n=3 a=0 accrued=0 redemption=36000000000000
base at-redemption dated=2024-01-31 maturity=2025-03-31 coupon=4 settle=2024-07-31 candidates=1
no=0 date=2025-03-31 at=100 MATURITY note due=37680000000000 accrued=720000000000 left=240
base at-redemption dated=2024-01-31 maturity=2025-03-31 coupon=4 settle=2025-03-30 candidates=1
no=0 date=2025-03-31 at=100 MATURITY note due=37680000000000 accrued=1680000000000 left=0
base discount dated=2024-01-31 maturity=2025-03-31 settle=2024-02-29 candidates=1
no=0 date=2025-03-31 at=100 MATURITY discounted days=392
base discount dated=2024-01-31 maturity=2025-03-31 settle=2025-03-30 candidates=1
no=0 date=2025-03-31 at=100 MATURITY discounted days=0
base at-redemption actual/365 dated=2024-01-31 maturity=2025-03-31 coupon=4 settle=2024-07-31 \
     candidates=1
no=0 date=2025-03-31 at=100 MATURITY note due=38200000000000 accrued=728000000000 left=243
base discount actual/365 dated=2024-01-31 maturity=2025-03-31 settle=2024-02-29 candidates=1
no=0 date=2025-03-31 at=100 MATURITY discounted days=396
base periodic dated=2020-01-01 first=2020-07-01 maturity=2032-01-01 coupon=4 call=2030-07-01:102+ \
     call=2031-07-01:100! settle=2030-03-31 candidates=3
no=0 date=2030-07-01 at=102 CALL one due=37440000000000 accrued=360000000000 left=90
no=1 date=2031-01-01 at=102 CALL many n=2 a=90 accrued=360000000000 redemption=36720000000000
no=2 date=2031-07-01 at=100 CALLED many n=3 a=90 accrued=360000000000 redemption=36000000000000
base periodic dated=2020-01-01 first=2020-07-01 maturity=2032-01-01 coupon=4 call=2030-07-01:102+ \
     settle=2030-07-01 candidates=3
no=0 date=2031-01-01 at=102 CALL one due=37440000000000 accrued=0 left=180
no=1 date=2031-07-01 at=102 CALL many n=2 a=0 accrued=0 redemption=36720000000000
no=2 date=2032-01-01 at=100 MATURITY many n=3 a=0 accrued=0 redemption=36000000000000
base periodic dated=2020-01-01 first=2020-07-01 maturity=2070-01-01 coupon=4 call=2020-07-01:100+ \
     settle=2020-01-01 candidates=100
no=98 date=2069-07-01 at=100 PAR many n=99 a=0 accrued=0 redemption=36000000000000
no=99 date=2070-01-01 at=100 MATURITY many n=100 a=0 accrued=0 redemption=36000000000000
base zero dated=2020-01-01 maturity=2030-01-01 call=2028-01-01:90+ call=2029-01-01:95 \
     settle=2027-10-01 candidates=4
no=1 date=2028-07-01 at=90 CALL many n=2 a=90 accrued=0 redemption=32400000000000
no=2 date=2029-01-01 at=95 CALL many n=3 a=90 accrued=0 redemption=34200000000000
";
