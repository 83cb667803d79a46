//! Payments up to maturity, computed with exact rational arithmetic outside the program.
//!
//! A line `base` gives an issue to the lines after it. These give a settlement, the number of
//! payments, how many at the front are 0, the first and each regular interest, the accrued interest,
//! and the days into the period.

/// Issues with coupons.
pub const WITH_COUPONS: &str = "\
base periodic dated=2024-01-15 first=2024-10-01 maturity=2026-10-01 coupon=6
settle=2024-01-15 n=6 skip=1 paid=1536000000000 regular=1080000000000 accrued=0 a=104
settle=2024-02-01 n=6 skip=1 paid=1536000000000 regular=1080000000000 accrued=96000000000 a=120
settle=2024-03-31 n=6 skip=1 paid=1536000000000 regular=1080000000000 accrued=456000000000 a=180
settle=2024-04-01 n=5 skip=0 paid=1536000000000 regular=1080000000000 accrued=456000000000 a=0
settle=2024-09-30 n=5 skip=0 paid=1536000000000 regular=1080000000000 accrued=1530000000000 a=179
settle=2024-10-01 n=4 skip=0 paid=1080000000000 regular=1080000000000 accrued=0 a=0
settle=2024-10-02 n=4 skip=0 paid=1080000000000 regular=1080000000000 accrued=6000000000 a=1
settle=2026-04-01 n=1 skip=0 paid=1080000000000 regular=1080000000000 accrued=0 a=0
settle=2026-09-30 n=1 skip=0 paid=1080000000000 regular=1080000000000 accrued=1074000000000 a=179
base periodic dated=2023-11-20 first=2024-01-01 maturity=2034-01-01 coupon=4.125
settle=2023-11-20 n=21 skip=0 paid=169125000000 regular=742500000000 accrued=0 a=139
settle=2023-12-31 n=21 skip=0 paid=169125000000 regular=742500000000 accrued=169125000000 a=180
settle=2024-01-01 n=20 skip=0 paid=742500000000 regular=742500000000 accrued=0 a=0
settle=2024-06-30 n=20 skip=0 paid=742500000000 regular=742500000000 accrued=738375000000 a=179
settle=2029-08-29 n=9 skip=0 paid=742500000000 regular=742500000000 accrued=239250000000 a=58
base periodic dated=2023-08-31 first=2024-02-28 maturity=2030-08-28 coupon=3.0625
settle=2023-08-31 n=14 skip=0 paid=545125000000 regular=551250000000 accrued=0 a=3
settle=2023-10-30 n=14 skip=0 paid=545125000000 regular=551250000000 accrued=183750000000 a=62
settle=2023-10-31 n=14 skip=0 paid=545125000000 regular=551250000000 accrued=183750000000 a=63
settle=2024-02-27 n=14 skip=0 paid=545125000000 regular=551250000000 accrued=542062500000 a=179
settle=2024-02-28 n=13 skip=0 paid=551250000000 regular=551250000000 accrued=0 a=0
settle=2024-02-29 n=13 skip=0 paid=551250000000 regular=551250000000 accrued=3062500000 a=1
settle=2024-08-29 n=12 skip=0 paid=551250000000 regular=551250000000 accrued=3062500000 a=1
settle=2024-08-30 n=12 skip=0 paid=551250000000 regular=551250000000 accrued=6125000000 a=2
settle=2024-08-31 n=12 skip=0 paid=551250000000 regular=551250000000 accrued=9187500000 a=3
settle=2029-12-31 n=2 skip=0 paid=551250000000 regular=551250000000 accrued=376687500000 a=123
base periodic dated=2020-01-01 first=2021-01-01 maturity=2070-01-01 coupon=30
settle=2020-01-01 n=100 skip=1 paid=10800000000000 regular=5400000000000 accrued=0 a=0
settle=2020-07-01 n=99 skip=0 paid=10800000000000 regular=5400000000000 accrued=5400000000000 a=0
settle=2020-12-31 n=99 skip=0 paid=10800000000000 regular=5400000000000 accrued=10800000000000 a=180
settle=2021-01-01 n=98 skip=0 paid=5400000000000 regular=5400000000000 accrued=0 a=0
base periodic dated=2022-01-01 first=2022-07-01 maturity=2044-01-01 coupon=4
settle=2024-01-01 n=40 skip=0 paid=720000000000 regular=720000000000 accrued=0 a=0
settle=2023-12-31 n=41 skip=0 paid=720000000000 regular=720000000000 accrued=720000000000 a=180
settle=2043-07-01 n=1 skip=0 paid=720000000000 regular=720000000000 accrued=0 a=0
settle=2043-06-30 n=2 skip=0 paid=720000000000 regular=720000000000 accrued=716000000000 a=179
settle=2043-12-31 n=1 skip=0 paid=720000000000 regular=720000000000 accrued=720000000000 a=180
base periodic dated=1950-01-01 first=1950-07-01 maturity=2000-01-01 coupon=0.0000001
settle=1950-01-01 n=100 skip=0 paid=18000 regular=18000 accrued=0 a=0
settle=1950-01-31 n=100 skip=0 paid=18000 regular=18000 accrued=3000 a=30
settle=1999-12-31 n=1 skip=0 paid=18000 regular=18000 accrued=18000 a=180
base periodic dated=2024-05-10 first=2024-11-15 maturity=2024-11-15 coupon=5.25
settle=2024-05-10 n=2 skip=1 paid=971250000000 regular=945000000000 accrued=0 a=175
settle=2024-05-15 n=1 skip=0 paid=971250000000 regular=945000000000 accrued=26250000000 a=0
settle=2024-11-14 n=1 skip=0 paid=971250000000 regular=945000000000 accrued=966000000000 a=179
# Up to a call, which has its own price
base periodic dated=2022-01-01 first=2022-07-01 maturity=2044-01-01 coupon=4
settle=2024-01-01 call=2034-01-01:101.5 n=20 skip=0 paid=720000000000 regular=720000000000 \
     accrued=0 a=0 redemption=36540000000000";

/// Issues without coupons, and the number of payments and the days into the period alone.
pub const WITHOUT_COUPONS: &str = "\
base zero dated=2020-01-01 maturity=2034-01-01
settle=2024-01-01 n=20 a=0
settle=2023-12-31 n=21 a=180
settle=2020-01-01 n=28 a=0
settle=2033-12-31 n=1 a=180
base zero dated=2149-12-31 maturity=2199-12-28
settle=2149-12-31 n=100 a=3
settle=2170-06-29 n=59 a=1
settle=2199-06-28 n=1 a=0
settle=2199-12-27 n=1 a=179";
